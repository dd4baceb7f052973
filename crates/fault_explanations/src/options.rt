// What is wrong with an area or a share.
use json_value::NumText;
use std::alloc::{AllocError, Global};
use topojson_decoder::shown;

/// Whether the text is decimal digits, one or more.
fn is_digits(text: &str) -> bool {
    !text.is_empty() && text.bytes().all(|byte| byte.is_ascii_digit())
}

/// Whether a comma between these stands for a point, and for no thousands.
fn is_decimal(whole: &str, part: &str) -> bool {
    let is_front = whole == "0" || (part.len() != 3 && !whole.starts_with("0"));
    is_front && is_digits(whole) && is_digits(part)
}

/// How an area is written, where the text can be mended.
fn area_as_number(alloc: Global, text: &str) -> Result<String, AllocError> {
    if let Some(rest) = text.strip_prefix(".") {
        if is_digits(rest) {
            return format!(in alloc; "  for {text} write 0{text}\n");
        }
    }
    if let Some(prefix) = text.strip_suffix(".") {
        if is_digits(prefix) {
            return format!(in alloc; "  for {text} write {prefix}\n");
        }
    }
    match text.split_once(",") {
        Some((whole, part)) if is_decimal(whole, part) => {
            format!(in alloc; "  for {text} write {whole}.{part}\n")
        }
        _ => Ok(String::new(alloc)),
    }
}

/// Why the text of an area is none. `option` is the word of the command line that it belongs to.
pub fn bad_area(alloc: Global, option: &str, text: &str) -> Result<String, AllocError> {
    let option = shown(alloc, option)?;
    if text.ends_with("%") {
        return format!(in alloc;
            "  {option} takes an area in square units of the coordinates, as a JSON number, such as 0.5\n  a share of the points is kept by --keep, as in --keep 1/10\n"
        );
    }
    match NumText::read(alloc, text) {
        Err(_) => Err(AllocError),
        Ok(Some(_)) => format!(in alloc;
            "  {option} takes a number from 0 to 10^18 that is a whole multiple of 10^-18\n"
        ),
        Ok(None) => {
            let mended = area_as_number(alloc, text)?;
            format!(in alloc;
                "  {option} takes an area in square units of the coordinates, as a JSON number, such as 0.5\n{mended}"
            )
        }
    }
}

/// Ten times itself so often, or the greatest number.
fn power_of_ten(exponent: usize) -> u64 {
    let mut power: u64 = 1;
    for _ in 0..exponent {
        power = power.saturating_mul(10);
    }
    power
}

/// The two numbers of the share that a decimal or so many hundredths stand for, with so many decimal places to add.
fn share_of(alloc: Global, decimal: &str, places: usize) -> Result<Option<(u64, u64)>, AllocError> {
    let (whole, part) = match decimal.split_once(".") {
        Some(parts) => parts,
        None => decimal.split_once(",").unwrap_or((decimal, "")),
    };
    let digits = format!(in alloc; "{whole}{part}")?;
    let places = part.len().saturating_add(places);
    if places == 0 || places > 9 || !is_digits(digits.as_str()) {
        return Ok(None);
    }
    let all = power_of_ten(places);
    match digits.as_str().parse::<u64>() {
        Ok(some) if some <= all => Ok(Some((some, all))),
        _ => Ok(None),
    }
}

/// How a share is written as a fraction that stands as a decimal or as hundredths, which a whole number may be, too.
fn share_as_fraction(alloc: Global, text: &str) -> Result<String, AllocError> {
    let share = match text.strip_suffix("%") {
        Some(hundredths) => share_of(alloc, hundredths, 2)?,
        None => share_of(alloc, text, 0)?,
    };
    if let Some((some, all)) = share {
        return format!(in alloc; "  for {text} write {some}/{all}\n");
    }
    match share_of(alloc, text, 2)? {
        Some((some, all)) => format!(in alloc; "  for {text} % write {some}/{all}\n"),
        None => Ok(String::new(alloc)),
    }
}

/// Why the text of a share is none.
pub fn bad_share(alloc: Global, text: &str) -> Result<String, AllocError> {
    if let Some((part, whole)) = text.split_once("/") {
        if is_digits(part) && is_digits(whole) {
            return format!(in alloc;
                "  the second number of a share is from 1 to 1000000000, and the first is at most the second\n"
            );
        }
    }
    let mended = share_as_fraction(alloc, text)?;
    format!(in alloc; "  a share is two whole numbers, as 1/10\n{mended}")
}
