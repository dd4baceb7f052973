// Arc indexes as they are written (TopoJSON 1.0, section 2.1.4).
ghost use Rattle.topojson_types.specs.Values.{whole_value};

use json_writer::{Out, PutValue, put_decimal};
use topojson_types::ArcRef;

/// The way to write arc indexes, which are whole numbers.
pub struct ArcRefs;

impl PutValue<ArcRef> for ArcRefs {
    ghost value = { whole_value };

    fn put<O: Out>(reference: &ArcRef, out: &mut O) {
        put_decimal(reference.written(), 0, out);
    }
}
