// What features are put into as they are read.
ghost use Rattle.std.specs.Prelude.{◌≡◌, ◌++◌, [], ◌∷◌, List, OnOk, length};
ghost use Rattle.geojson_types.specs.Features.{Featured};

use crate::feature::Feature;
use std::alloc::{AllocError, Global};

/// What the features of a layer are put into, one after another, as they are read.
pub trait CollectsFeatures: Sized + Drop + 'static {
    /// Those that were put into it, in order.
    ghost features: { Self → List Featured };

    /// With none in it.
    fn none(alloc: Global) -> Self
        ensures { features result ≡ [] };

    /// Puts one after the others.
    fn put(&mut self, alloc: Global, feature: Feature) -> Result<(), AllocError>
        ensures { OnOk result (features self.new ≡ features self.old ++ feature ∷ []) };

    /// How many they are.
    fn count(&self) -> usize
        ensures { result ≡ length (features self.now) };

    /// No more come: room for more is given back.
    fn end(&mut self)
        ensures { features self.new ≡ features self.old };
}

/// A list, where nothing else is to be made of them.
impl CollectsFeatures for Vec<Feature> {
    ghost features = { λ v. v.items };

    fn none(alloc: Global) -> Vec<Feature> {
        Vec::new(alloc)
    }

    #[inline(always)]
    fn put(&mut self, alloc: Global, feature: Feature) -> Result<(), AllocError> {
        match self.push(feature) {
            Ok(()) => Ok(()),
            Err(_) => Err(AllocError),
        }
    }

    #[inline(always)]
    fn count(&self) -> usize {
        self.len()
    }

    fn end(&mut self) {
        self.shrink_to_fit();
    }
}
