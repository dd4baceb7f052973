// Where a byte stands in a text.
ghost use Rattle.std.specs.Prelude.{◌≡◌, take};
ghost use Rattle.fault_explanations.specs.Places as spec;

/// The line and the column of a byte. Both count from one, the columns in characters.
#[derive(Clone, Copy, Debug, PartialEq, Eq)]
pub struct Place {
    pub line: u64,
    pub column: u64,
}

/// Where the next byte stands.
fn following(byte: u8, place: Place) -> Place
    ensures { result ≡ spec.following byte place }
{
    if byte == b'\n' {
        return Place {
            line: place.line.saturating_add(1),
            column: 1,
        };
    }
    if byte >= 0x80 && byte < 0xc0 {
        return place;
    }
    Place {
        line: place.line,
        column: place.column.saturating_add(1),
    }
}

/// So many bytes from the first on, or all.
pub(crate) fn prefix(bytes: &[u8], count: usize) -> &[u8]
    ensures { result.now ≡ take count bytes.now }
{
    if count < bytes.len() {
        &bytes[..count]
    } else {
        bytes
    }
}

/// The bytes from this one on.
pub(crate) fn suffix(bytes: &[u8], from: usize) -> &[u8] {
    if from < bytes.len() {
        &bytes[from..]
    } else {
        &[]
    }
}

/// Where the byte of this number stands, or the end where there are no more bytes.
#[tactic(auto, unfolding(crate::specs::Places::place_after))]
pub fn place_in(bytes: &[u8], at: usize) -> Place
    ensures { result ≡ spec.place_after (take at bytes.now) spec.start }
{
    let mut rest = prefix(bytes, at);
    let mut place = Place { line: 1, column: 1 };
    while let [byte, more @ ..] = rest {
        place = following(*byte, place);
        rest = more;
    }
    place
}
