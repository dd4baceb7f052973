// Arcs that stand as they are written where there is no transform.
ghost use Rattle.std.specs.Prelude.{◌≡◌, None, IfOk, IfSome, true};
ghost use Rattle.json_value.specs.Text.{json_text};
ghost use Rattle.geojson_types.specs.declared.counts.Counts.{Counts};
ghost use Rattle.json_cursor.specs.Answers.{Reads};
ghost use Rattle.json_cursor.specs.Arrays.{prefix_value};
ghost use Rattle.unit_scanning.specs.Numbers.{ends};
ghost use Rattle.topojson_types.specs.Values.{arc_value};
ghost use Rattle.topojson_meaning.specs.Arcs as spec;
ghost use Rattle.topojson_decoder.specs.LeastArcs.{AreSpelled};

use json_cursor::after_byte;
use std::alloc::AllocError;
use topojson_types::Cell;
use unit_scanning::least_pair_at;

/// Puts the positions that stand after the bracket of an arc into the list, where they stand as they are written, and gives what follows the arc.
fn least_positions_at<'a>(
    list: &mut Vec<Cell>,
    inside: &'a [u8],
) -> Result<Option<&'a [u8]>, AllocError>
    ensures { IfOk result (λ o. IfSome o (λ rest. AreSpelled list.new.items inside.now rest.now)) }
{
    list.clear();
    let mut left = inside;
    'positions: for _ in 0..inside.len() {
        let Some((x, y, following)) = least_pair_at(left) else {
            return Ok(None);
        };
        list.push(Cell::at(x, y))?;
        if let Some(rest) = after_byte(b']', following) {
            return Ok(Some(rest));
        }
        let Some(more) = after_byte(b',', following) else {
            return Ok(None);
        };
        left = more;
    }
    Ok(None)
}

/// A comma or the bracket that closes an array stands at the front.
fn is_marked(rest: &[u8]) -> bool
    ensures { result ≡ true → ends rest.now ≡ true }
{
    matches!(rest, [b',' | b']', ..])
}

/// Puts the positions of the arc at the front into the list, where it stands as it is written, and gives the text in which it stands, and what
/// follows it.
pub(crate) fn least_arc_at<'a>(
    depth_left: u32,
    list: &mut Vec<Cell>,
    bytes: &'a [u8],
) -> Result<Option<(&'a [u8], &'a [u8])>, AllocError>
    ensures reads { IfOk result (λ o. IfSome o (λ x. (counts : Counts) → Reads (spec.arc None) (prefix_value depth_left bytes.now) list.new.items x.1.now counts counts)) }
    ensures text { IfOk result (λ o. IfSome o (λ x. x.0.now ≡ json_text (arc_value None list.new.items))) }
{
    if depth_left < 2 {
        return Ok(None);
    }
    let Some(inside) = after_byte(b'[', bytes) else {
        return Ok(None);
    };
    let Some(rest) = least_positions_at(list, inside)? else {
        return Ok(None);
    };
    if list.len() < 2 || !is_marked(rest) {
        return Ok(None);
    }
    let (text, _) = bytes.split_at(bytes.len() - rest.len());
    Ok(Some((text, rest)))
}
