// The kind of the value at the front.
ghost use Rattle.json_cursor.specs.Kinds.{IsKind};

use crate::marks::first_at;

/// What kind of value it is (RFC 8259, section 3).
#[derive(Clone, Copy, Debug, PartialEq, Eq)]
pub enum Kind {
    Null,
    Bool,
    Number,
    Text,
    Array,
    Object,
}

/// The kind of the value at the front, if one stands there: the first byte decides.
#[inline(always)]
pub fn kind_at(bytes: &[u8]) -> Kind
    ensures { IsKind bytes.now result }
{
    let Some((first, _)) = first_at(bytes) else {
        return Kind::Null;
    };
    match first {
        b'n' => Kind::Null,
        b't' => Kind::Bool,
        b'f' => Kind::Bool,
        b'"' => Kind::Text,
        b'[' => Kind::Array,
        b'{' => Kind::Object,
        _ => Kind::Number,
    }
}
