// The way to a fault, and what is wrong there, in words.
use crate::walk::{Member, Step, Walk};
use std::alloc::{AllocError, Global};
use topojson_decoder::quoted;

/// So many characters of a type are shown.
const SHOWN: usize = 40;

/// Whether the way leads to more of the geometry of a feature than its type.
fn is_in_geometry(trail: &[Step]) -> bool {
    trail.len() > 1
        && trail[0] == Step::Member(Member::Geometry)
        && trail[1] != Step::Member(Member::Type)
}

/// Adds a step to a way.
fn add_step(alloc: Global, path: &mut String, step: Step) -> Result<(), AllocError> {
    match step {
        Step::Element(index) => {
            let part = format!(in alloc; "[{index}]")?;
            path.push_str(part.as_str())
        }
        Step::Member(member) => {
            if !path.is_empty() {
                path.push_str(".")?;
            }
            path.push_str(member.name())
        }
    }
}

/// The way to a value, as `coordinates[0][3]`. That it is the `geometry` of a feature goes without saying for what is in it.
fn path(alloc: Global, trail: &[Step]) -> Result<String, AllocError> {
    let steps = match trail {
        [_, inside @ ..] if is_in_geometry(trail) => inside,
        _ => trail,
    };
    let mut path = String::new(alloc);
    for step in steps {
        add_step(alloc, &mut path, *step)?;
    }
    Ok(path)
}

/// The text in quotation marks, with two points after it where more of it isn't shown.
fn briefly_quoted(alloc: Global, text: &str) -> Result<String, AllocError> {
    let mut front = String::new(alloc);
    for (number, letter) in text.chars().enumerate() {
        if number == SHOWN {
            let mut cut = quoted(alloc, front.as_str())?;
            cut.push_str("..")?;
            return Ok(cut);
        }
        front.push(letter)?;
    }
    quoted(alloc, text)
}

/// What is wrong at the place where a walk stopped.
fn wrong(alloc: Global, walk: &Walk) -> Result<String, AllocError> {
    let words = walk.words();
    match walk.type_name() {
        None => String::from_str(alloc, words),
        Some(name) => {
            let name = briefly_quoted(alloc, name)?;
            format!(in alloc; "is {name}, {words}")
        }
    }
}

/// The line for the place where a walk through a file stopped, and what is wrong there.
pub(crate) fn file_line(alloc: Global, walk: &Walk) -> Result<String, AllocError> {
    let path = path(alloc, walk.trail())?;
    let wrong = wrong(alloc, walk)?;
    if path.is_empty() {
        return format!(in alloc; "  it {wrong}\n");
    }
    format!(in alloc; "  {path} {wrong}\n")
}

/// The same of a walk through this part of a file.
pub(crate) fn part_line(alloc: Global, part: &str, walk: &Walk) -> Result<String, AllocError> {
    let path = path(alloc, walk.trail())?;
    let wrong = wrong(alloc, walk)?;
    if path.is_empty() {
        return format!(in alloc; "  {part} {wrong}\n");
    }
    format!(in alloc; "  {part}: {path} {wrong}\n")
}
