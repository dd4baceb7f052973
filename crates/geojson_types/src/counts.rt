ghost use Rattle.std.specs.Prelude.{◌≡◌};
ghost use Rattle.geojson_types.specs.Counting as spec;

/// What a reader counts. A count stays at the greatest `u64` once it is there.
#[derive(Clone, Copy, Debug, PartialEq, Eq)]
pub struct Counts {
    /// Coordinates that weren't whole in units of `10^-PLACES` and were rounded.
    pub rounded: u64,
    /// Positions with more than two elements (RFC 7946, section 3.1.1), of which two were read.
    pub extra: u64,
    /// Empty arrays in place of coordinates, of a line, of a ring or of a polygon.
    pub empty: u64,
}

impl Counts {
    /// Nothing counted yet.
    pub fn none() -> Counts
        ensures { result ≡ spec.no_counts }
    {
        Counts {
            rounded: 0,
            extra: 0,
            empty: 0,
        }
    }

    /// One more coordinate, if it was rounded.
    pub fn count_rounded(&mut self, rounded: bool)
        ensures { self.new ≡ spec.count_rounded rounded self.old }
    {
        if rounded {
            self.rounded = self.rounded.saturating_add(1);
        }
    }

    /// One more position, if it has further elements.
    pub fn count_extra(&mut self, extra: bool)
        ensures { self.new ≡ spec.count_extra extra self.old }
    {
        if extra {
            self.extra = self.extra.saturating_add(1);
        }
    }

    /// One more empty array.
    pub fn count_empty(&mut self)
        ensures { self.new ≡ spec.count_empty self.old }
    {
        self.empty = self.empty.saturating_add(1);
    }
}
