// What may follow a value.
ghost use Rattle.std.specs.Prelude.{◌≡◌, [], ◌∷◌};
ghost use Rattle.unit_scanning.specs.Numbers.{ends};

/// The byte may follow a value: white space, a comma or a closing bracket.
#[cold]
#[inline(never)]
fn is_end_byte(byte: u8) -> bool
    ensures { result ≡ ends (byte ∷ []) }
{
    byte == b' '
        || byte == b'\t'
        || byte == b'\n'
        || byte == b'\r'
        || (byte == b',' || (byte == b']' || byte == b'}'))
}

/// Nothing follows a value, or a byte that may. A comma and the bracket of an array are looked for first.
#[inline(always)]
pub fn is_end(rest: &[u8]) -> bool
    ensures { result ≡ ends rest.now }
{
    match rest {
        [] => true,
        [b',' | b']', ..] => true,
        [first, ..] => is_end_byte(*first),
    }
}
