// Objects and topologies as they are written (TopoJSON 1.0, sections 2.1 and 2.2).
ghost use Rattle.std.specs.Prelude.{◌≡◌, ◌++◌, [], ◌∷◌, codes, map};
ghost use Rattle.byte_ends.specs.Writes.{Writes};
ghost use Rattle.json_value.specs.Text.{json_text};
ghost use Rattle.json_value.specs.declared.json.Json.TheVariants as j;
ghost use Rattle.json_writer.specs.Standing.{Start};
ghost use Rattle.topojson_types.specs.declared.object.TopoObject.TheVariants.{Many};
ghost use Rattle.topojson_types.specs.Values.{object_value, objects_value, topology_value};
ghost use Rattle.topojson_writer.specs.Texts.{members_text, contents_members};

use crate::arc_writer::Differences;
use crate::bounds_writer::put_bounds;
use crate::cell_writer::{GridCells, Positions};
use crate::object_writer::{Features, put_feature};
use crate::transform_writer::put_transform;
use byte_ends::{Drain, Sink, WriteFault};
use json_value::Items;
use json_writer::{ArrayOf, Buffered, Out, PutValue, put_array, put_object};
use std::marker::PhantomData;
use topojson_types::{Cell, TopoFeature, TopoObject, Topology};

/// Puts the GeometryCollection of these features.
fn put_collection<C: PutValue<Cell>, O: Out>(features: &[TopoFeature], out: &mut O)
    ensures text { O.text out.new ≡ O.text out.old ++ json_text (object_value C.value (Many features.now)) }
    ensures kept { (start : Start) → O.good out.old start → O.good out.new start }
{
    out.put(b"{\"type\":\"GeometryCollection\",\"geometries\":");
    put_array::<Features<C>, TopoFeature, O>(features, out);
    out.put(b"}");
}

// The way to write the objects of a topology, with their cells in this way.
struct Objects<C> {
    cells: PhantomData<C>,
}

impl<C: PutValue<Cell>> PutValue<TopoObject> for Objects<C> {
    ghost value = { object_value C.value };

    fn put<O: Out>(object: &TopoObject, out: &mut O) {
        match object {
            TopoObject::One(feature) => put_feature::<C, O>(feature, out),
            TopoObject::Many(features) => put_collection::<C, O>(features.as_slice(), out),
        }
    }
}

/// Puts the members `objects` and `arcs`, each after a comma, with cells and arcs in these ways.
fn put_objects_and_arcs<C: PutValue<Cell>, A: PutValue<Items<Cell>>, O: Out>(
    topology: &Topology,
    out: &mut O,
)
    ensures text { O.text out.new ≡ O.text out.old ++ members_text ((codes "objects", objects_value C.value topology.now.objects) ∷ ((codes "arcs", j.Array (map A.value topology.now.arcs)) ∷ [])) }
    ensures kept { (start : Start) → O.good out.old start → O.good out.new start }
{
    out.put(b",\"objects\":");
    put_object::<Objects<C>, TopoObject, O>(topology.objects(), out);
    out.put(b",\"arcs\":");
    put_array::<A, Items<Cell>, O>(topology.arcs(), out);
}

/// Puts the members `objects` and `arcs`, each after a comma.
fn put_contents<O: Out>(topology: &Topology, out: &mut O)
    ensures text { O.text out.new ≡ O.text out.old ++ members_text (contents_members topology.now) }
    ensures kept { (start : Start) → O.good out.old start → O.good out.new start }
{
    match topology.transform() {
        None => put_objects_and_arcs::<Positions, ArrayOf<Positions>, O>(topology, out),
        Some(_) => put_objects_and_arcs::<GridCells, Differences, O>(topology, out),
    }
}

/// Puts the topology, as `write_topology` does.
#[tactic(auto, using(crate::proofs::Whole::topologies))]
pub fn put_topology<O: Out>(topology: &Topology, out: &mut O)
    ensures text { O.text out.new ≡ O.text out.old ++ json_text (topology_value topology.now) }
    ensures kept { (start : Start) → O.good out.old start → O.good out.new start }
{
    out.put(b"{\"type\":\"Topology\"");
    put_transform(topology.transform(), out);
    put_bounds(topology.bounds(), out);
    put_contents(topology, out);
    out.put(b"}");
}

/// Writes the text of the topology (TopoJSON 1.0, section 2) with no white space, and answers the number of bytes: its transform,
/// if there is one, its bounding box (section 3), if it has a position, its objects by name in order, and then its arcs. A position
/// is two least decimals, x first, and an arc index a whole number. The box is the least x and y and then the greatest of where its
/// cells lie, also with a transform, as least decimals. With a transform a cell is two whole numbers, an arc is its first cell and
/// then differences, and the numbers of the transform keep their texts. Identifiers and properties keep the texts of their numbers,
/// their order and their duplicates; a null geometry has the type null. `Write` says how many bytes of the text the device took before
/// it failed. This takes no memory.
pub fn write_topology<W: Drain>(topology: &Topology, sink: &mut Sink<W>) -> Result<u64, WriteFault>
    ensures { Writes sink.old sink.new 0 (json_text (topology_value topology.now)) result }
{
    let mut out = Buffered::over(sink);
    put_topology(topology, &mut out);
    out.end()
}
