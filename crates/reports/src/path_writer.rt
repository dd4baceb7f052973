// The path of a line or a ring that isn't written.
ghost use Rattle.std.specs.Prelude.{◌≡◌, ◌++◌, decimal, map};
ghost use Rattle.json_value.specs.Text.{json_text};
ghost use Rattle.json_value.specs.declared.json.Json.TheVariants as j;
ghost use Rattle.json_writer.specs.Standing.{Start};
ghost use Rattle.reports.specs.Reports as spec;
ghost use Rattle.reports.specs.Values.{number};

use crate::number_writer::put_number;
use geometry::AddressPath;
use json_writer::Out;

/// Puts a number after these bytes.
#[tactic(auto, using(std::proofs::Common::append_assoc))]
fn put_next<O: Out>(between: &[u8], number: usize, out: &mut O)
    ensures text { O.text out.new ≡ O.text out.old ++ (between.now ++ decimal number) }
    ensures kept { (start : Start) → O.good out.old start → O.good out.new start }
{
    out.put(between);
    put_number(number as u64, out);
}

/// Puts numbers, each after these bytes.
fn put_rest<O: Out>(between: &[u8], numbers: &[usize], out: &mut O)
    ensures text { O.text out.new ≡ O.text out.old ++ spec.path_rest between.now numbers.now }
    ensures kept { (start : Start) → O.good out.old start → O.good out.new start }
{
    'numbers: for number in numbers {
        put_next(between, *number, out);
    }
}

/// Puts the numbers of a path with these bytes between, or others for the empty path.
#[tactic(auto, using(std::proofs::Common::append_assoc, crate::proofs::Paths::rest_of_both))]
pub(crate) fn put_path<O: Out>(path: &AddressPath, between: &[u8], none: &[u8], out: &mut O)
    ensures text { O.text out.new ≡ O.text out.old ++ spec.path_text between.now none.now path.now }
    ensures kept { (start : Start) → O.good out.old start → O.good out.new start }
{
    let Some((first, rest, others)) = path.split_first() else {
        return out.put(none);
    };
    put_number(first as u64, out);
    put_rest(between, rest, out);
    put_rest(between, others, out);
}

/// Puts the array of the numbers of a path.
#[tactic(auto, using(std::proofs::Common::append_assoc, crate::proofs::Paths::array_of_path))]
pub(crate) fn put_path_array<O: Out>(path: &AddressPath, out: &mut O)
    ensures text { O.text out.new ≡ O.text out.old ++ json_text (j.Array (map number path.now)) }
    ensures kept { (start : Start) → O.good out.old start → O.good out.new start }
{
    out.put(b"[");
    put_path(path, b",", b"", out);
    out.put(b"]");
}
