// The features of which nothing is left, and those that had nothing.
use crate::brief::{BARE_ENDING, LOSS_ENDING};
use crate::samples::front_of;
use geojson_meaning::{Address, Dropped};
use itoa::Buffer;
use reports::{features_in, has_nothing};
use std::alloc::{AllocError, Global};
use topojson_decoder::add_label;
use topojson_types::TopoObject;

/// The lines and rings that are dropped and weren't looked at yet, in reading order.
#[derive(Drop)]
pub(crate) struct DropsLeft<'a> {
    rest: &'a [Dropped],
}

impl<'a> DropsLeft<'a> {
    /// All of these.
    pub(crate) fn of(dropped: &'a [Dropped]) -> DropsLeft<'a> {
        DropsLeft { rest: dropped }
    }

    /// Takes those of this feature and all before it, and answers whether one was of this feature.
    fn take(&mut self, object: usize, feature: usize) -> bool {
        let mut is_among = false;
        let mut rest = self.rest;
        while let [first, more @ ..] = rest {
            let address = &first.address;
            if is_after(address, object, feature) {
                break;
            }
            is_among = address.layer == object && address.feature == feature;
            rest = more;
        }
        self.rest = rest;
        is_among
    }
}

/// Whether a line stands after this feature in reading order.
fn is_after(address: &Address, object: usize, feature: usize) -> bool {
    address.layer > object || (address.layer == object && address.feature > feature)
}

/// Adds a line for each feature of the object with this number of which a line or a ring was dropped and nothing is left. `place` is what
/// stands before the number of a feature. The answer is how many others have no geometry.
pub(crate) fn add_losses(
    alloc: Global,
    lines: &mut String,
    place: &str,
    number: usize,
    object: &TopoObject,
    drops: &mut DropsLeft<'_>,
) -> Result<u64, AllocError> {
    let mut bare: u64 = 0;
    for (feature, left) in features_in(object).iter().enumerate() {
        let is_dropped = drops.take(number, feature);
        let is_empty = has_nothing(left);
        if is_empty && !is_dropped {
            bare = bare.saturating_add(1);
        }
        if is_empty && is_dropped {
            let mut number = Buffer::new();
            lines.push_str(place)?;
            lines.push_str(number.format(feature))?;
            add_label(alloc, lines, left)?;
            lines.push_str(LOSS_ENDING)?;
            lines.push_str("\n")?;
        }
    }
    Ok(bare)
}

/// The line for a layer of this number and name of whose features so many have no geometry, or which has no features.
pub(crate) fn bare_line(
    alloc: Global,
    number: usize,
    name: &str,
    bare: u64,
    features: usize,
) -> Result<String, AllocError> {
    if bare == 0 && features > 0 {
        return Ok(String::new(alloc));
    }
    let name = front_of(alloc, name)?;
    if features == 0 {
        return format!(in alloc; "  layer {number} {name}: no features, and so{BARE_ENDING}\n");
    }
    format!(in alloc; "  layer {number} {name}: {bare} of {features} features have{BARE_ENDING}\n")
}
