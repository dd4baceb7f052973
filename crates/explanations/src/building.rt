// What is said of a topology that was built.
ghost use Rattle.std.specs.Prelude.{◌≡◌, ◌+◌, ◌<◌};
ghost use Rattle.explanations.specs.Numbers.{thousandths as thousandths_of};

use crate::observed::Observed;
use geojson_types::PLACES;
use grid_snap::Bounds;
use json_writer::{ShortText, add_units};
use reports::Report;
use std::alloc::{AllocError, Global};
use std::str;

/// How many thousandths `part` is of `part` and `rest`, rounded down.
fn thousandths(part: u64, rest: u64) -> u128
    requires { 0 < part + rest }
    ensures { result ≡ thousandths_of part rest }
{
    u128::from(part) * 1000 / (u128::from(part) + u128::from(rest))
}

/// The line for what was kept, where so many were kept and so many removed.
fn kept_line(alloc: Global, what: &str, kept: u64, removed: u64) -> Result<String, AllocError> {
    if kept == 0 && removed == 0 {
        return Ok(String::new(alloc));
    }
    let all = u128::from(kept) + u128::from(removed);
    let share = thousandths(kept, removed);
    let percent = share / 10;
    let tenth = share % 10;
    format!(in alloc; "  kept {kept} of {all} {what}, {percent}.{tenth} %\n")
}

/// How many attos, which are `10^-18`, one is.
const ATTOS: u128 = 1_000_000_000_000_000_000;

/// A number of attos as a decimal.
fn decimal_of_attos(alloc: Global, attos: u128) -> Result<String, AllocError> {
    let whole = attos / ATTOS;
    let mut part = attos % ATTOS;
    let mut text = format!(in alloc; "{whole}")?;
    if part == 0 {
        return Ok(text);
    }
    text.push_str(".")?;
    for _ in 0..18 {
        if part == 0 {
            break;
        }
        part = part.saturating_mul(10);
        let digit = part / ATTOS;
        write!(text, "{digit}")?;
        part %= ATTOS;
    }
    Ok(text)
}

/// The area of which a threshold is twice the number of attos, as `--min-area` takes it. That is too small by half an atto where the
/// threshold is odd.
fn chosen(alloc: Global, threshold: u128) -> Result<String, AllocError> {
    let area = decimal_of_attos(alloc, threshold / 2)?;
    if threshold % 2 == 0 {
        return format!(in alloc;
            "  the area chosen is {area} square units of the coordinates: --min-area {area} keeps the same points\n"
        );
    }
    format!(in alloc;
        "  the area chosen is {area} square units of the coordinates and half of 10^-18: --min-area {area} keeps these points, and may keep more\n"
    )
}

/// The line that says of which arcs the share is that was asked for, where so many lines and rings of them aren't written.
fn share_line(alloc: Global, dropped: usize) -> Result<String, AllocError> {
    if dropped == 0 {
        return Ok(String::new(alloc));
    }
    format!(in alloc;
        "  the share is of the points of all arcs, before {dropped} lines and rings were left out\n"
    )
}

/// How many positions between the ends of arcs were kept.
fn kept_between(report: &Report) -> u64 {
    report.kept.saturating_sub(report.arcs.saturating_mul(2))
}

/// How many attos these bounds enclose.
fn enclosed(bounds: Bounds) -> u128 {
    let width = bounds.left.abs_diff(bounds.right);
    let height = bounds.bottom.abs_diff(bounds.top);
    u128::from(width).saturating_mul(u128::from(height))
}

/// The lines for an area that was asked for, where positions were removed, or lines and rings dropped, and `threshold` is twice its number of
/// attos: that no position is left between the ends of arcs, and that the area is over what the bounds of the layers enclose, if these are known.
fn area_lines(
    alloc: Global,
    report: &Report,
    threshold: u128,
    bounds: Option<Bounds>,
) -> Result<String, AllocError> {
    let mut lines = String::new(alloc);
    let is_whole = report.removed == 0 && report.dropped.is_empty();
    if is_whole || report.chosen.is_some() {
        return Ok(lines);
    }
    if report.removed > 0 && kept_between(report) == 0 {
        lines.push_str(
            "  all points between the ends of arcs are gone: a smaller area may leave some\n",
        )?;
    }
    match bounds.map(enclosed) {
        Some(most) if threshold / 2 > most => {
            let area = decimal_of_attos(alloc, threshold / 2)?;
            let most = decimal_of_attos(alloc, most)?;
            write!(
                lines,
                "  the area {area} is over all that the bounds of the layers enclose, {most} square units of the coordinates\n"
            )?;
        }
        _ => {}
    }
    Ok(lines)
}

/// How many positions of how many were kept, and, where some were removed, how many between the ends of arcs, which always stay; which area
/// was chosen, if one was, and of which arcs; and what else is said of the area that was asked for, where `threshold` is twice its number of
/// attos.
pub fn built(
    alloc: Global,
    report: &Report,
    threshold: u128,
    observed: &Observed,
) -> Result<String, AllocError> {
    let removed = report.removed;
    let mut lines = kept_line(
        alloc,
        "positions of the arcs that are written",
        report.kept,
        removed,
    )?;
    if removed > 0 {
        let line = kept_line(alloc, "between their ends", kept_between(report), removed)?;
        lines.push_str(line.as_str())?;
    }
    lines.push_str(area_lines(alloc, report, threshold, observed.bounds())?.as_str())?;
    if let Some(threshold) = report.chosen {
        lines.push_str(chosen(alloc, threshold)?.as_str())?;
        lines.push_str(share_line(alloc, report.dropped.len())?.as_str())?;
    }
    Ok(lines)
}

/// A number of units as a decimal.
pub(crate) fn decimal_of_units(alloc: Global, units: i64) -> Result<String, AllocError> {
    let mut text = ShortText::new();
    add_units(&mut text, units, PLACES);
    match str::from_utf8(text.as_slice()) {
        Ok(digits) => String::from_str(alloc, digits),
        Err(_) => Ok(String::new(alloc)),
    }
}
