// Members of layers and topologies that aren't read, counted in the bytes of an input that was taken.
use crate::left_out::{LeftOut, spelled_name};
use crate::member_names::{MemberName, named_member};
use geojson_meaning::{CoordinatesType, GeoJsonType, GeometryType, geojson_type};
use json_cursor::{after_byte, string_at};
use json_reading::{TOPOLOGY_DEPTH, skip};
use std::alloc::{AllocError, Global};
use topojson_decoder::{after_mark, leap, next_member, rest_after};

/// What has members of its own in a layer (RFC 7946, section 1.4) or in a topology (TopoJSON 1.0, section 2), and the lists of such.
#[derive(Clone, Copy, PartialEq, Eq)]
enum Part {
    Layer,
    Features,
    Feature,
    Geometry,
    Geometries,
    Topology,
    Transform,
    Objects,
    Object,
    /// The geometries of an object, which are features.
    ObjectFeatures,
    ObjectFeature,
}

impl Part {
    /// What it is by its own type: a layer may be a FeatureCollection, a Feature or a geometry, and an object a GeometryCollection of features or
    /// one feature.
    fn as_typed(self, of_type: Option<GeoJsonType>) -> Part {
        match (self, of_type) {
            (Part::Layer, Some(GeoJsonType::Feature)) => Part::Feature,
            (Part::Layer, Some(GeoJsonType::Geometry(_))) => Part::Geometry,
            (Part::Object, Some(GeoJsonType::Geometry(GeometryType::Collection))) => Part::Object,
            (Part::Object, _) => Part::ObjectFeature,
            _ => self,
        }
    }

    /// Whether its type has to be known at a member of this name: at the type itself in a geometry, and at any in a layer or an object, which
    /// stand in no other.
    #[inline(always)]
    fn asks_type(self, name: MemberName) -> bool {
        match self {
            Part::Layer | Part::Object => true,
            Part::Geometry | Part::ObjectFeature => matches!(name, MemberName::Type),
            _ => false,
        }
    }

    /// Whether it is a geometry, whose type says if a member of this name is read in it.
    #[inline(always)]
    fn hangs_on_type(self, name: MemberName) -> bool {
        match self {
            Part::Geometry | Part::ObjectFeature => matches!(
                name,
                MemberName::Arcs | MemberName::Coordinates | MemberName::Geometries
            ),
            _ => false,
        }
    }

    /// What the elements of a list of such are.
    fn element(self) -> Option<Part> {
        match self {
            Part::Features => Some(Part::Feature),
            Part::Geometries => Some(Part::Geometry),
            Part::ObjectFeatures => Some(Part::ObjectFeature),
            _ => None,
        }
    }
}

/// A member of a part.
#[derive(Clone, Copy)]
enum Member {
    Unread,
    Read,
    /// It is read, and has such a part for its value.
    Holds(Part),
}

/// A member that is read, or not.
fn read_if(is_read: bool) -> Member {
    if is_read {
        Member::Read
    } else {
        Member::Unread
    }
}

/// The member of this name of a FeatureCollection.
fn layer_member(name: MemberName) -> Member {
    match name {
        MemberName::Features => Member::Holds(Part::Features),
        MemberName::Type => Member::Read,
        _ => Member::Unread,
    }
}

/// The member of this name of a Feature.
fn feature_member(name: MemberName) -> Member {
    match name {
        MemberName::Geometry => Member::Holds(Part::Geometry),
        MemberName::Type | MemberName::Id | MemberName::Properties => Member::Read,
        _ => Member::Unread,
    }
}

/// The member of this name of a topology.
fn topology_member(name: MemberName) -> Member {
    match name {
        MemberName::Transform => Member::Holds(Part::Transform),
        MemberName::Objects => Member::Holds(Part::Objects),
        MemberName::Type | MemberName::Bbox | MemberName::Arcs => Member::Read,
        _ => Member::Unread,
    }
}

/// The member of this name of an object that is a collection.
fn object_member(name: MemberName) -> Member {
    match name {
        MemberName::Geometries => Member::Holds(Part::ObjectFeatures),
        MemberName::Type => Member::Read,
        _ => Member::Unread,
    }
}

/// How a member is named that may come before the type of its geometry.
fn early_name(name: MemberName) -> &'static [u8] {
    match name {
        MemberName::Arcs => b"\"arcs\"",
        MemberName::Coordinates => b"\"coordinates\"",
        _ => b"\"geometries\"",
    }
}

/// What the members of an input that aren't read are.
#[derive(Clone, Copy)]
pub(crate) struct Unread<'a> {
    is_topology: bool,
    pub(crate) bbox: u64,
    pub(crate) crs: u64,
    pub(crate) others: u64,
    /// The first names of the others.
    pub(crate) names: LeftOut<'a>,
    /// What stands from the value of the layer's own member `crs` on, if it has one.
    pub(crate) layer_crs: Option<&'a [u8]>,
}

/// The members of a geometry that come before its type, which says whether they are read.
#[derive(Clone, Copy)]
struct Early<'a> {
    arcs: u64,
    coordinates: u64,
    geometries: u64,
    /// What isn't read in the value of `geometries`, if it is that of a collection.
    within: Unread<'a>,
}

impl<'a> Early<'a> {
    /// None yet.
    fn none(is_topology: bool) -> Early<'a> {
        Early {
            arcs: 0,
            coordinates: 0,
            geometries: 0,
            within: Unread::none(is_topology),
        }
    }

    /// With a member of this name, but for what is in it.
    fn count(&mut self, name: MemberName) {
        match name {
            MemberName::Arcs => self.arcs = self.arcs.saturating_add(1),
            MemberName::Coordinates => self.coordinates = self.coordinates.saturating_add(1),
            _ => self.geometries = self.geometries.saturating_add(1),
        }
    }
}

impl<'a> Unread<'a> {
    /// Nothing counted yet.
    fn none(is_topology: bool) -> Unread<'a> {
        Unread {
            is_topology,
            bbox: 0,
            crs: 0,
            others: 0,
            names: LeftOut::none(),
            layer_crs: None,
        }
    }

    /// Of the layer that the bytes spell.
    pub(crate) fn of_layer(alloc: Global, bytes: &'a [u8]) -> Result<Unread<'a>, AllocError> {
        Unread::of(alloc, false, Part::Layer, bytes)
    }

    /// Of the topology that the bytes spell.
    pub(crate) fn of_topology(alloc: Global, bytes: &'a [u8]) -> Result<Unread<'a>, AllocError> {
        Unread::of(alloc, true, Part::Topology, bytes)
    }

    fn of(
        alloc: Global,
        is_topology: bool,
        part: Part,
        bytes: &'a [u8],
    ) -> Result<Unread<'a>, AllocError> {
        let mut unread = Unread::none(is_topology);
        match unread.pass(alloc, part, TOPOLOGY_DEPTH, skip(after_mark(bytes))) {
            Some(_) => Ok(unread),
            // What was taken spells a value, so that memory was refused.
            None => Err(AllocError),
        }
    }

    /// With the member at the front, of this name and of such a part, with what stands from its value on; nothing for want of memory.
    fn count(
        &mut self,
        alloc: Global,
        part: Part,
        name: MemberName,
        member: &'a [u8],
        value: &'a [u8],
    ) -> Option<()> {
        match name {
            MemberName::Bbox => self.bbox = self.bbox.saturating_add(1),
            MemberName::Crs => {
                self.crs = self.crs.saturating_add(1);
                if part == Part::Layer {
                    self.layer_crs = Some(value);
                }
            }
            _ => {
                self.others = self.others.saturating_add(1);
                self.names.add(spelled_name(alloc, member)?);
            }
        }
        Some(())
    }

    /// With what was counted in a value.
    fn add(&mut self, counted: &Unread<'a>) {
        self.bbox = self.bbox.saturating_add(counted.bbox);
        self.crs = self.crs.saturating_add(counted.crs);
        self.others = self.others.saturating_add(counted.others);
        self.names.add_all(&counted.names);
    }

    /// With so many members of this name of a geometry of this type, if they aren't read.
    fn add_unread(&mut self, of_type: Option<GeoJsonType>, name: MemberName, count: u64) {
        if count > 0 && matches!(self.geometry_member(of_type, name), Member::Unread) {
            self.others = self.others.saturating_add(count);
            self.names.add(early_name(name));
        }
    }

    /// With the members of a geometry that came before its type, which is this, if it has one.
    fn add_early(&mut self, of_type: Option<GeoJsonType>, early: &Early<'a>) {
        self.add_unread(of_type, MemberName::Arcs, early.arcs);
        self.add_unread(of_type, MemberName::Coordinates, early.coordinates);
        self.add_unread(of_type, MemberName::Geometries, early.geometries);
        if matches!(
            self.geometry_member(of_type, MemberName::Geometries),
            Member::Holds(_)
        ) {
            self.add(&early.within);
        }
    }

    /// Whether a geometry with these coordinates is made of the member of this name.
    fn is_made_of(&self, coordinates: CoordinatesType, name: MemberName) -> bool {
        let is_of_arcs = match coordinates {
            CoordinatesType::Point | CoordinatesType::MultiPoint => false,
            _ => self.is_topology,
        };
        if is_of_arcs {
            matches!(name, MemberName::Arcs)
        } else {
            matches!(name, MemberName::Coordinates)
        }
    }

    /// The member of this name of a geometry of this type.
    fn geometry_member(&self, of_type: Option<GeoJsonType>, name: MemberName) -> Member {
        if matches!(name, MemberName::Type) {
            return Member::Read;
        }
        match of_type {
            Some(GeoJsonType::Geometry(GeometryType::Collection)) => match name {
                MemberName::Geometries => Member::Holds(Part::Geometries),
                _ => Member::Unread,
            },
            Some(GeoJsonType::Geometry(GeometryType::Coordinates(coordinates))) => {
                read_if(self.is_made_of(coordinates, name))
            }
            _ => Member::Unread,
        }
    }

    /// The member of this name of such a part, whose own type is this, if it has one.
    #[inline(always)]
    fn member(&self, part: Part, of_type: Option<GeoJsonType>, name: MemberName) -> Member {
        match part.as_typed(of_type) {
            Part::Layer => layer_member(name),
            Part::Feature => feature_member(name),
            Part::Topology => topology_member(name),
            Part::Transform => read_if(matches!(name, MemberName::Scale | MemberName::Translate)),
            Part::Objects => Member::Holds(Part::Object),
            Part::Object => object_member(name),
            Part::ObjectFeature if matches!(name, MemberName::Id | MemberName::Properties) => {
                Member::Read
            }
            _ => self.geometry_member(of_type, name),
        }
    }

    /// What follows the value at the front, which is such a part, and whose members that aren't read are counted; nothing for want of memory.
    #[cycle(passing)]
    fn pass(
        &mut self,
        alloc: Global,
        part: Part,
        depth_left: u32,
        bytes: &'a [u8],
    ) -> Option<&'a [u8]> {
        if depth_left == 0 {
            return rest_after(alloc, bytes);
        }
        if let Some(inside) = after_byte(b'{', bytes) {
            return self.pass_members(alloc, part, depth_left - 1, skip(inside));
        }
        match (part.element(), after_byte(b'[', bytes)) {
            (Some(element), Some(inside)) => {
                self.pass_elements(alloc, element, depth_left - 1, skip(inside))
            }
            // (`rest_after` would look through all elements behind it for the name of a next member)
            (None, Some(_)) => leap(bytes),
            (_, None) => rest_after(alloc, bytes),
        }
    }

    /// What follows the members of such a part. The type of a layer or an object is looked for behind the first of them. Geometries stand in each
    /// other: what hangs on the type of one and comes before it is counted once the type is known, so each is passed once, however deep it stands.
    #[cycle(passing)]
    fn pass_members(
        &mut self,
        alloc: Global,
        part: Part,
        depth_left: u32,
        inside: &'a [u8],
    ) -> Option<&'a [u8]> {
        if let Some(rest) = after_byte(b'}', inside) {
            return Some(rest);
        }
        let mut is_typed = false;
        let mut of_type = None;
        let mut early = Early::none(self.is_topology);
        let mut rest = inside;
        for _ in 0..inside.len() {
            let (name, value) = named_member(alloc, rest)?;
            if !is_typed && part.asks_type(name) {
                of_type = type_among(alloc, name, value)?;
                is_typed = true;
            }
            let after = if !is_typed && part.hangs_on_type(name) {
                early.count(name);
                early.within.pass_early(alloc, depth_left, name, value)?
            } else {
                self.pass_member(alloc, part, of_type, depth_left, name, rest, value)?
            };
            match next_member(after) {
                Some(more) => rest = more,
                None => {
                    self.add_early(of_type, &early);
                    return after_byte(b'}', skip(after));
                }
            }
        }
        None
    }

    /// What follows the member at the front, of this name and of such a part, whose own type is this, if it has one.
    #[cycle(passing)]
    #[inline(always)]
    fn pass_member(
        &mut self,
        alloc: Global,
        part: Part,
        of_type: Option<GeoJsonType>,
        depth_left: u32,
        name: MemberName,
        member: &'a [u8],
        value: &'a [u8],
    ) -> Option<&'a [u8]> {
        match self.member(part, of_type, name) {
            Member::Holds(held) => return self.pass(alloc, held, depth_left, value),
            Member::Unread => self.count(alloc, part, name, member, value)?,
            Member::Read => {}
        }
        rest_after(alloc, value)
    }

    /// What follows the member of this name of a geometry whose type comes later. Here that is counted which isn't read in it if the geometry is
    /// a collection.
    #[cycle(passing)]
    fn pass_early(
        &mut self,
        alloc: Global,
        depth_left: u32,
        name: MemberName,
        value: &'a [u8],
    ) -> Option<&'a [u8]> {
        if matches!(name, MemberName::Geometries) {
            return self.pass(alloc, Part::Geometries, depth_left, value);
        }
        rest_after(alloc, value)
    }

    /// What follows the elements of a list of such parts.
    #[cycle(passing)]
    fn pass_elements(
        &mut self,
        alloc: Global,
        part: Part,
        depth_left: u32,
        inside: &'a [u8],
    ) -> Option<&'a [u8]> {
        if let Some(rest) = after_byte(b']', inside) {
            return Some(rest);
        }
        let mut rest = inside;
        for _ in 0..inside.len() {
            let after = self.pass(alloc, part, depth_left, rest)?;
            match next_member(after) {
                Some(more) => rest = more,
                None => return after_byte(b']', skip(after)),
            }
        }
        None
    }
}

/// The type that this value is, if it is one of GeoJSON's (RFC 7946, section 1.4); nothing for want of memory.
fn type_at(alloc: Global, value: &[u8]) -> Option<Option<GeoJsonType>> {
    match string_at(alloc, value).ok()? {
        Some((text, _)) => Some(geojson_type(text.as_str())),
        None => Some(None),
    }
}

/// The type that the first of some members has which is `type`: of the one of this name and value, and of those after it. Nothing for want of
/// memory.
fn type_among(alloc: Global, first: MemberName, value: &[u8]) -> Option<Option<GeoJsonType>> {
    let mut name = first;
    let mut here = value;
    for _ in 0..value.len() {
        if matches!(name, MemberName::Type) {
            return type_at(alloc, here);
        }
        let Some(more) = next_member(rest_after(alloc, here)?) else {
            return Some(None);
        };
        (name, here) = named_member(alloc, more)?;
    }
    Some(None)
}
