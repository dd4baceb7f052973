ghost use Rattle.std.specs.Prelude.{◌≡◌, true};
ghost use Rattle.std.specs.Option.{option_copied};
ghost use Rattle.geojson_types.specs.Features.{is_proper_option};
ghost use Rattle.geojson_types.specs.Moving.{moved_feature};

use crate::id::Id;
use geometry::{Moves, Shape, move_shape};
use json_value::Properties;
use std::marker::Model;

/// A feature (RFC 7946, section 3.2). No list of its shape is empty but that of a Group, and a line of it has
/// two positions or more. `None` stands for no identifier, for null properties and for a null geometry.
#[derive(Debug, Drop)]
pub struct Feature {
    id: Option<Id>,
    properties: Option<Properties>,
    shape: Option<Shape>,
}

impl Model for Feature {
    ghost use Rattle.std.specs.Prelude.{◌≡◌, true};
    ghost use Rattle.geojson_types.specs.Features.{Featured, is_proper_option};
    ghost use Rattle.geojson_types.specs.Codes.{feature_code};

    ghost Value = { Featured };

    ghost coded = { feature_code };

    ghost view = { λ f. record { id = f.id; properties = f.properties; shape = f.shape } };

    ghost invariant = { λ f. is_proper_option f.shape ≡ true };
}

impl Feature {
    /// The feature of these parts.
    pub fn of(id: Option<Id>, properties: Option<Properties>, shape: Option<Shape>) -> Feature
        requires { is_proper_option shape ≡ true }
        ensures { result ≡ record { id = id; properties = properties; shape = shape } }
    {
        Feature {
            id,
            properties,
            shape,
        }
    }

    /// Its identifier, where it has one.
    pub fn id(&self) -> Option<&Id>
        ensures { option_copied result ≡ self.now.id }
    {
        self.id.as_ref()
    }

    /// Its members in order, with duplicates.
    pub fn properties(&self) -> Option<&Properties>
        ensures { option_copied result ≡ self.now.properties }
    {
        self.properties.as_ref()
    }

    /// Its geometry, where that is not null.
    pub fn shape(&self) -> Option<&Shape>
        ensures value { option_copied result ≡ self.now.shape }
        ensures proper { is_proper_option self.now.shape ≡ true }
    {
        self.shape.as_ref()
    }

    /// Each position of its shape replaced.
    pub fn move_positions<M: Moves>(&mut self, moves: &M)
        ensures { self.new ≡ moved_feature (M.goes_to moves.now) self.old }
    {
        if let Some(shape) = self.shape.as_mut() {
            move_shape(moves, shape);
        }
    }

    /// Its parts, by value: identifier, properties and shape.
    pub fn into_parts(self) -> (Option<Id>, Option<Properties>, Option<Shape>)
        ensures id { result.0 ≡ self.id }
        ensures properties { result.1 ≡ self.properties }
        ensures shape { result.2 ≡ self.shape }
        ensures proper { is_proper_option result.2 ≡ true }
    {
        let feature = self;
        (feature.id, feature.properties, feature.shape)
    }
}
