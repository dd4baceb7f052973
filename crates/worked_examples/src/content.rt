// The bytes that a block stands for.
use std::alloc::{AllocError, Global};

/// The bytes of a block: a JSON text has no newline at its end, another text has one, bytes are in hexadecimal, and two
/// kinds of large files are made by rule. Nothing where the head names no kind, or the lines aren't of that kind.
pub(crate) fn content(
    alloc: Global,
    kind: &str,
    lines: &str,
) -> Result<Option<Vec<u8>>, AllocError> {
    match kind {
        "json" => Ok(Some(Vec::from_slice(alloc, lines.as_bytes())?)),
        "text" => Ok(Some(format!(in alloc; "{lines}\n")?.into_bytes())),
        "bytes" => hexadecimal(alloc, lines),
        "repeated" => repeated(alloc, lines),
        "squares" => squares(alloc, lines),
        _ => Ok(None),
    }
}

/// The bytes of pairs of hexadecimal digits.
fn hexadecimal(alloc: Global, lines: &str) -> Result<Option<Vec<u8>>, AllocError> {
    let mut bytes = Vec::new(alloc);
    for word in lines.split_whitespace() {
        match u8::from_str_radix(word, 16) {
            Ok(byte) => bytes.push(byte)?,
            Err(_) => return Ok(None),
        }
    }
    Ok(Some(bytes))
}

/// Of each line the text after its first space, as often as the number before it says.
fn repeated(alloc: Global, lines: &str) -> Result<Option<Vec<u8>>, AllocError> {
    let mut bytes = Vec::new(alloc);
    for line in lines.lines() {
        let Some((number, text)) = line.split_once(' ') else {
            return Ok(None);
        };
        let Ok(times) = number.parse::<u32>() else {
            return Ok(None);
        };
        for _ in 0..times {
            bytes.extend_from_slice(text.as_bytes())?;
        }
    }
    Ok(Some(bytes))
}

/// A GeometryCollection of unit squares, row by row, for a line as `20 by 20`: how many in a row, and how many rows.
fn squares(alloc: Global, line: &str) -> Result<Option<Vec<u8>>, AllocError> {
    let Some((width, height)) = line.split_once(" by ") else {
        return Ok(None);
    };
    let (Ok(width), Ok(height)) = (width.parse::<u32>(), height.parse::<u32>()) else {
        return Ok(None);
    };
    let mut text = String::from_str(alloc, "{\"type\":\"GeometryCollection\",\"geometries\":[")?;
    for y in 0..height {
        for x in 0..width {
            if (x, y) != (0, 0) {
                text.push_str(",")?;
            }
            text.push_str(square(alloc, x, y)?.as_str())?;
        }
    }
    text.push_str("]}")?;
    Ok(Some(text.into_bytes()))
}

/// A unit square as a Polygon, from its lower left corner and counterclockwise.
fn square(alloc: Global, x: u32, y: u32) -> Result<String, AllocError> {
    let right = x.saturating_add(1);
    let top = y.saturating_add(1);
    format!(in alloc;
        "{{\"type\":\"Polygon\",\"coordinates\":[[[{x},{y}],[{right},{y}],[{right},{top}],[{x},{top}],[{x},{y}]]]}}"
    )
}
