// Arrays of topologies.
ghost use Rattle.json_cursor.specs.Answers.{Answers};
ghost use Rattle.json_cursor.specs.Arrays.{array_by, prefix_value};
ghost use Rattle.json_cursor.specs.Folds.{fold};
ghost use Rattle.topojson_meaning.specs.declared.fault.TopoFault.TheVariants.{WrongKind};

use geojson_types::Counts;
use json_cursor::{Elements, Stop, folded_array_at};
use std::alloc::Global;
use topojson_meaning::TopoFault;

/// What is made of the elements of the array at the front, none or more, and what follows it; or why reading stops.
#[inline(always)]
pub(crate) fn elements_at<'a, T: Elements<'a, Fault = TopoFault, With = ()> + Drop>(
    alloc: Global,
    depth_left: u32,
    start: T,
    bytes: &'a [u8],
    counts: &mut Counts,
) -> Result<(T, &'a [u8]), Stop<TopoFault>>
    ensures { Answers (λ x. x) (array_by WrongKind (fold (T.takes tt) start)) (prefix_value depth_left bytes.now) counts.old counts.new result }
{
    let wrong = TopoFault::WrongKind;
    folded_array_at(alloc, depth_left, start, bytes, wrong, (), counts)
}
