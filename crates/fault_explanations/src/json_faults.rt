// Why bytes are no JSON text.
ghost use Rattle.std.specs.Prelude.{◌≤◌};

use crate::form::{FileForm, form_of, is_plain};
use crate::place::{place_in, prefix};
use crate::sight::slip_at;
use crate::slips;
use crate::spot::{Opened, Part, spot_at};
use crate::trees::{is_sequence, stop};
use json_reading::{JsonFault, Why, skip};
use std::alloc::{AllocError, Global};
use topojson_decoder::after_mark;

/// Where the byte of this number stands, and these words.
fn placed(alloc: Global, bytes: &[u8], at: usize, words: &str) -> Result<String, AllocError> {
    let place = place_in(bytes, at);
    let line = place.line;
    let column = place.column;
    format!(in alloc; "  line {line}, column {column} (byte {at}): {words}\n")
}

/// Why reading stops.
fn words(why: Why) -> &'static str {
    match why {
        Why::Syntax => "a byte that does not belong there",
        Why::End => "the text ends too early",
        Why::Deep => "arrays and objects nest too deep",
        Why::Surrogate => "half of a surrogate pair stands alone",
    }
}

/// What to do with a file that begins like this, if that is known.
fn advice(form: FileForm) -> &'static str {
    match form {
        FileForm::Gzip => "  the file is packed by gzip: unpack it first, as with gunzip\n",
        FileForm::Zip => "  the file is a zip archive: unpack it first, as with unzip\n",
        FileForm::Shapefile => {
            "  the file is a shapefile: make GeoJSON of it, as by ogr2ogr -f GeoJSON out.json in.shp\n"
        }
        FileForm::ShapefileTable => {
            "  the file is the table of a shapefile: make GeoJSON of the .shp beside it, as by ogr2ogr -f GeoJSON out.json in.shp\n"
        }
        FileForm::Sqlite => {
            "  the file is an SQLite database, as a GeoPackage is: make GeoJSON of a layer of it, as by ogr2ogr -f GeoJSON out.json in.gpkg LAYER\n"
        }
        FileForm::FlatGeobuf => {
            "  the file is FlatGeobuf: make GeoJSON of it, as by ogr2ogr -f GeoJSON out.json in.fgb\n"
        }
        FileForm::Utf16 => "  the file is text of UTF-16: save it as UTF-8\n",
        FileForm::Kml => {
            "  the file is KML: make GeoJSON of it, as by ogr2ogr -f GeoJSON out.json in.kml\n"
        }
        FileForm::Markup => "  the file is HTML or XML, and no JSON\n",
        FileForm::Blank => "  the file is empty, or all white space\n",
        FileForm::Other => "",
    }
}

/// Whether the bytes, which are no UTF-8 from this one on, seem to be a JSON text of Latin-1: all before it is ASCII, and it isn't the last.
fn is_latin(bytes: &[u8], at: usize) -> bool {
    matches!(skip(bytes), [b'{' | b'[', ..])
        && prefix(bytes, at).iter().all(|byte| is_plain(*byte))
        && at.saturating_add(1) < bytes.len()
}

/// Whether the bytes begin with the byte order mark of UTF-32. The little-endian one begins with that of UTF-16.
fn is_utf32(bytes: &[u8]) -> bool {
    matches!(bytes, [0xff, 0xfe, 0, 0, ..] | [0, 0, 0xfe, 0xff, ..])
}

/// What to do with a file that is no UTF-8 from the byte of this number on, if that is known.
fn encoding_advice(bytes: &[u8], at: usize) -> &'static str {
    if is_utf32(bytes) {
        return "  the file is text of UTF-32: save it as UTF-8\n";
    }
    match form_of(bytes) {
        FileForm::Other if is_latin(bytes, at) => {
            "  the file may be text of Latin-1: make UTF-8 of it, as by iconv -f WINDOWS-1252 -t UTF-8 in.json > out.json\n"
        }
        form => advice(form),
    }
}

/// Adds the line for what begins at the byte of this number and isn't ended there.
fn add_begun(
    alloc: Global,
    lines: &mut String,
    bytes: &[u8],
    begun: &str,
    at: usize,
) -> Result<(), AllocError> {
    let place = place_in(bytes, at);
    let line = place.line;
    let column = place.column;
    let begins = format!(in alloc;
        "  the {begun} begins at line {line}, column {column} (byte {at})\n"
    )?;
    lines.push_str(begins.as_str())
}

/// Adds the line for an array or an object that isn't ended, if there is one.
fn add_opened(
    alloc: Global,
    lines: &mut String,
    bytes: &[u8],
    innermost: Option<Opened>,
) -> Result<(), AllocError> {
    match innermost {
        None => Ok(()),
        Some(opened) if opened.is_object => add_begun(alloc, lines, bytes, "object", opened.at),
        Some(opened) => add_begun(alloc, lines, bytes, "array", opened.at),
    }
}

/// The lines for the byte of this number, which does not belong there: what it is, as far as the bytes show, and what to do.
fn misplaced(alloc: Global, bytes: &[u8], at: usize) -> Result<String, AllocError> {
    let spot = spot_at(alloc, bytes, at)?;
    let slip = slip_at(&spot, bytes, at);
    let mut lines = placed(alloc, bytes, at, slip.words)?;
    lines.push_str(slip.advice)?;
    if slip == slips::OPEN_ARRAY || slip == slips::OPEN_OBJECT || slip == slips::NAME {
        add_opened(alloc, &mut lines, bytes, spot.innermost())?;
    }
    Ok(lines)
}

/// The lines for a text that ends too early: where what isn't ended begins.
fn ended(alloc: Global, bytes: &[u8], at: usize) -> Result<String, AllocError> {
    let spot = spot_at(alloc, bytes, at)?;
    let mut lines = placed(alloc, bytes, at, words(Why::End))?;
    match spot.part {
        Part::Text | Part::Escape => add_begun(alloc, &mut lines, bytes, "text", spot.start)?,
        Part::Nothing | Part::Scalar => {
            add_opened(alloc, &mut lines, bytes, spot.innermost())?;
        }
    }
    Ok(lines)
}

/// The lines for the byte of this number, where reading stops for this reason in a file of this kind. Of a file that isn't text the kind says more.
fn stopped(
    alloc: Global,
    bytes: &[u8],
    form: FileForm,
    at: usize,
    why: Why,
) -> Result<String, AllocError> {
    match why {
        Why::Syntax if form == FileForm::Other => misplaced(alloc, bytes, at),
        Why::End => ended(alloc, bytes, at),
        _ => placed(alloc, bytes, at, words(why)),
    }
}

/// What is wrong with bytes that are UTF-8 and no JSON text. `sequence` is said where they are JSON texts one after another.
fn malformed(
    alloc: Global,
    bytes: &[u8],
    deepest: u32,
    sequence: &str,
) -> Result<String, AllocError>
    requires { deepest ≤ 255 }
{
    let form = form_of(after_mark(bytes));
    let Some((at, why)) = stop(alloc, bytes, deepest)? else {
        return String::from_str(alloc, advice(form));
    };
    let mut lines = stopped(alloc, bytes, form, at, why)?;
    lines.push_str(advice(form))?;
    if is_sequence(alloc, bytes, deepest)? {
        lines.push_str(sequence)?;
    }
    Ok(lines)
}

/// What is wrong with bytes for which this fault was answered. `sequence` is said of JSON texts one after another.
pub(crate) fn json_fault(
    alloc: Global,
    bytes: &[u8],
    deepest: u32,
    sequence: &str,
    fault: JsonFault,
) -> Result<String, AllocError>
    requires { deepest ≤ 255 }
{
    match fault {
        JsonFault::Memory => Ok(String::new(alloc)),
        JsonFault::NotUtf8 { at } => {
            let mut lines = placed(alloc, bytes, at, "the bytes are no UTF-8")?;
            lines.push_str(encoding_advice(bytes, at))?;
            Ok(lines)
        }
        JsonFault::Malformed { .. } => malformed(alloc, bytes, deepest, sequence),
    }
}
