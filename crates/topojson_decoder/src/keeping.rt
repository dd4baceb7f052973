// What is kept of what is read.
ghost use Rattle.std.specs.Prelude.{◌≡◌};
ghost use Rattle.topojson_decoder.specs.Kept.{of_shape};

use topojson_types::TopoShape;

/// What is kept of the features and the arcs that are read. They are checked alike.
#[derive(Clone, Copy)]
pub enum Keeping {
    /// All that they are. Where a text is given that stays to the end of the process, of which what is read is the end, the text of properties is left
    /// there if it stands as it is written.
    Whole(Option<&'static [u8]>),
    /// The geometries of features, with no identifier and no properties. All that the arcs are.
    Shapes,
    /// How many features there are, and no feature of a collection. Of each arc its ends.
    Counted,
}

impl Keeping {
    /// What is kept of the geometry of a feature.
    #[inline(always)]
    pub(crate) fn shape(self, shape: Option<TopoShape>) -> Option<TopoShape>
        ensures { result ≡ of_shape self shape }
    {
        match self {
            Keeping::Whole(_) => shape,
            Keeping::Shapes => shape,
            Keeping::Counted => None,
        }
    }
}
