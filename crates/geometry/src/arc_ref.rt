ghost use Rattle.std.specs.Prelude.{◌≡◌, ◌<◌, ◌^◌, pos};
ghost use Rattle.geometry.specs.Joins.{number_of, is_reversed};

use std::marker::Model;

/// An arc index (TopoJSON 1.0, section 2.1.4): the number of an arc, or its ones' complement where the arc is meant reversed.
#[derive(Clone, Copy, Debug, PartialEq, Eq)]
pub struct ArcRef(i64);

impl Model for ArcRef {
    ghost use Rattle.std.specs.Prelude.{ℤ};

    ghost Value = { ℤ };

    ghost view = { λ r. r.0 };

    ghost inverse = { λ z. record { 0 = z } };
}

impl ArcRef {
    /// The arc index of this whole number.
    pub fn of(written: i64) -> ArcRef
        ensures { result ≡ written }
    {
        ArcRef(written)
    }

    /// The arc of this number as it stands.
    pub fn forward(index: usize) -> ArcRef
        requires { index < 2 ^ 63 }
        ensures { result ≡ pos index }
    {
        ArcRef(index as i64)
    }

    /// The number as it is written.
    pub fn written(self) -> i64
        ensures { result ≡ self }
    {
        self.0
    }

    /// The number of the arc.
    #[tactic(auto, unfolding(crate::specs::Joins::number_of))]
    pub fn index(self) -> usize
        ensures { result ≡ number_of self }
    {
        if self.0 < 0 {
            (-1 - self.0) as usize
        } else {
            self.0 as usize
        }
    }

    /// Whether the arc is meant reversed.
    #[tactic(auto, unfolding(crate::specs::Joins::is_reversed))]
    pub fn reversed(self) -> bool
        ensures { result ≡ is_reversed self }
    {
        self.0.is_negative()
    }
}
