// What kind of file bytes begin as that are no JSON text.
ghost use Rattle.std.specs.Prelude.{◌≡◌};
ghost use Rattle.fault_explanations.specs.Forms as spec;

use json_reading::{after_word, skip};

/// What kind of file it is, as far as its first bytes show.
#[derive(Clone, Copy, Debug, PartialEq, Eq)]
pub enum FileForm {
    /// Packed by gzip (RFC 1952).
    Gzip,
    /// A zip archive.
    Zip,
    /// The part of a shapefile that has the shapes, or their index.
    Shapefile,
    /// The part of a shapefile that has the properties.
    ShapefileTable,
    /// A database of SQLite, as a GeoPackage is.
    Sqlite,
    /// FlatGeobuf.
    FlatGeobuf,
    /// Text of UTF-16.
    Utf16,
    /// KML (OGC 12-007r2).
    Kml,
    /// HTML or XML.
    Markup,
    /// Nothing but white space, if that.
    Blank,
    /// Any other.
    Other,
}

/// Whether the bytes begin with these.
pub(crate) fn begins(word: &[u8], bytes: &[u8]) -> bool
    ensures { result ≡ spec.begins word.now bytes.now }
{
    after_word(word, bytes).is_some()
}

/// Whether it is an ASCII character that a text may have.
pub(crate) fn is_plain(byte: u8) -> bool
    ensures { result ≡ spec.is_plain byte }
{
    byte == b'\t' || byte == b'\n' || byte == b'\r' || (32 <= byte && byte <= 126)
}

/// Whether these are a zero and an ASCII character.
fn is_pair(empty: u8, letter: u8) -> bool
    ensures { result ≡ spec.is_pair empty letter }
{
    empty == 0 && is_plain(letter)
}

/// Whether they begin as two characters of UTF-16 that are ASCII.
fn begins_in_pairs(bytes: &[u8]) -> bool
    ensures { result ≡ spec.begins_in_pairs bytes.now }
{
    match bytes {
        [a, b, c, d, ..] => (is_pair(*a, *b) && is_pair(*c, *d))
            || (is_pair(*b, *a) && is_pair(*d, *c)),
        _ => false,
    }
}

/// Whether they are text of UTF-16.
fn is_utf16(bytes: &[u8]) -> bool
    ensures { result ≡ spec.is_utf16 bytes.now }
{
    begins(&[0xff, 0xfe], bytes) || begins(&[0xfe, 0xff], bytes) || begins_in_pairs(bytes)
}

/// Whether they are the table of a shapefile.
fn is_table(bytes: &[u8]) -> bool
    ensures { result ≡ spec.is_table bytes.now }
{
    match bytes {
        [version, _, month, day, _, _, _, _, low, ..] => {
            *version == 3
                && (1 <= *month && *month <= 12)
                && (1 <= *day && *day <= 31)
                && *low % 32 == 1
        }
        _ => false,
    }
}

/// What stands after the first `>`.
#[tactic(auto, unfolding(crate::specs::Forms::after_greater))]
fn after_greater(bytes: &[u8]) -> &[u8]
    ensures { result.now ≡ spec.after_greater bytes.now }
{
    let mut rest = bytes;
    while let [byte, more @ ..] = rest {
        if *byte == b'>' {
            return more;
        }
        rest = more;
    }
    rest
}

/// Whether the text is KML.
fn is_kml(bytes: &[u8]) -> bool
    ensures { result ≡ spec.is_kml bytes.now }
{
    begins(b"<kml", bytes)
        || (begins(b"<?xml", bytes) && begins(b"<kml", skip(after_greater(bytes))))
}

/// What kind of text it is, after white space.
fn text_form(bytes: &[u8]) -> FileForm
    ensures { result ≡ spec.text_form bytes.now }
{
    if bytes.is_empty() {
        return FileForm::Blank;
    }
    if is_kml(bytes) {
        return FileForm::Kml;
    }
    if begins(b"<", bytes) {
        return FileForm::Markup;
    }
    FileForm::Other
}

/// What kind of file the bytes begin as.
#[tactic(auto, unfolding(crate::specs::Forms::form_of))]
pub fn form_of(bytes: &[u8]) -> FileForm
    ensures { result ≡ spec.form_of bytes.now }
{
    if begins(&[0x1f, 0x8b], bytes) {
        return FileForm::Gzip;
    }
    if begins(b"PK\x03\x04", bytes) {
        return FileForm::Zip;
    }
    if begins(&[0x00, 0x00, 0x27, 0x0a], bytes) {
        return FileForm::Shapefile;
    }
    if begins(b"SQLite format 3", bytes) {
        return FileForm::Sqlite;
    }
    if begins(b"fgb\x03", bytes) {
        return FileForm::FlatGeobuf;
    }
    if is_table(bytes) {
        return FileForm::ShapefileTable;
    }
    if is_utf16(bytes) {
        return FileForm::Utf16;
    }
    text_form(skip(bytes))
}
