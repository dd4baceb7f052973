// The first fault of a layer's tree, and the way to it.
use crate::positions::position;
use crate::type_names::geometry_words;
use geojson_meaning::{CoordinatesType, GeoFaultKind, GeometryType, Position, geometry_type};
use json_reading::LAYER_DEPTH;
use json_value::{Json, LookupFault, OwnText, find};
use std::alloc::Global;

/// The members of layers (RFC 7946) and of topologies that are looked at.
#[derive(Clone, Copy, PartialEq, Eq)]
pub(crate) enum Member {
    Type,
    Features,
    Id,
    Properties,
    Geometry,
    Coordinates,
    Geometries,
    Transform,
    Scale,
    Translate,
    Arcs,
}

impl Member {
    pub(crate) fn name(self) -> &'static str {
        match self {
            Member::Type => "type",
            Member::Features => "features",
            Member::Id => "id",
            Member::Properties => "properties",
            Member::Geometry => "geometry",
            Member::Coordinates => "coordinates",
            Member::Geometries => "geometries",
            Member::Transform => "transform",
            Member::Scale => "scale",
            Member::Translate => "translate",
            Member::Arcs => "arcs",
        }
    }
}

/// A step on the way to a value inside another.
#[derive(Clone, Copy, PartialEq, Eq)]
pub(crate) enum Step {
    Member(Member),
    Element(usize),
}

/// A walk through a layer in the order in which faults are answered. After a fault the trail leads to the value that has it, and the
/// words say what is wrong with it.
#[derive(Drop)]
pub(crate) struct Walk {
    alloc: Global,
    exact: bool,
    trail: Vec<Step>,
    /// The type that is none that can stand there.
    type_name: Option<String>,
    words: &'static str,
}

impl Walk {
    /// A walk that hasn't begun.
    pub(crate) fn new(alloc: Global, exact: bool) -> Walk {
        Walk {
            alloc,
            exact,
            trail: Vec::new(alloc),
            type_name: None,
            words: "",
        }
    }

    /// The steps that lead to the fault.
    pub(crate) fn trail(&self) -> &[Step] {
        self.trail.as_slice()
    }

    /// The type that is wrong there, if it is one.
    pub(crate) fn type_name(&self) -> Option<&str> {
        match &self.type_name {
            Some(name) => Some(name.as_str()),
            None => None,
        }
    }

    /// What is wrong there.
    pub(crate) fn words(&self) -> &'static str {
        self.words
    }

    pub(crate) fn enter(&mut self, step: Step) -> Result<(), GeoFaultKind> {
        self.trail.push(step)?;
        Ok(())
    }

    pub(crate) fn leave(&mut self) {
        let _ = self.trail.pop();
    }

    /// Answers a fault of the value that is being looked at.
    pub(crate) fn stop(&mut self, kind: GeoFaultKind, words: &'static str) -> GeoFaultKind {
        self.words = words;
        kind
    }

    /// Answers that a type is none that can stand there. The words follow it.
    pub(crate) fn stop_type(&mut self, name: &str, words: &'static str) -> GeoFaultKind {
        match String::from_str(self.alloc, name) {
            Ok(name) => {
                self.type_name = Some(name);
                self.stop(GeoFaultKind::UnknownType, words)
            }
            Err(_) => GeoFaultKind::Memory,
        }
    }

    /// The member of this name, if there is one, which is entered.
    fn enter_if<'a>(
        &mut self,
        members: &'a [(OwnText, Json)],
        member: Member,
    ) -> Result<Option<&'a Json>, GeoFaultKind> {
        self.enter(Step::Member(member))?;
        match find(members, member.name()) {
            Ok(value) => Ok(value),
            Err(LookupFault::Duplicate) => {
                Err(self.stop(GeoFaultKind::Duplicate, "stands there twice"))
            }
            Err(fault) => Err(GeoFaultKind::from(fault)),
        }
    }

    /// The member of this name, which must be there and is entered.
    pub(crate) fn enter_member<'a>(
        &mut self,
        members: &'a [(OwnText, Json)],
        member: Member,
    ) -> Result<&'a Json, GeoFaultKind> {
        match self.enter_if(members, member)? {
            Some(value) => Ok(value),
            None => Err(self.stop(GeoFaultKind::Missing, "is missing")),
        }
    }

    /// The member of this name, which must be an array and is entered.
    pub(crate) fn enter_array<'a>(
        &mut self,
        members: &'a [(OwnText, Json)],
        member: Member,
    ) -> Result<&'a [Json], GeoFaultKind> {
        let value = self.enter_member(members, member)?;
        self.elements(value)
    }

    /// The elements of an array.
    pub(crate) fn elements<'a>(&mut self, value: &'a Json) -> Result<&'a [Json], GeoFaultKind> {
        match value.as_array() {
            Some(elements) => Ok(elements),
            None => Err(self.stop(GeoFaultKind::WrongKind, "is no array")),
        }
    }

    /// The member `type`, which is entered.
    pub(crate) fn enter_type<'a>(
        &mut self,
        members: &'a [(OwnText, Json)],
    ) -> Result<&'a str, GeoFaultKind> {
        let value = self.enter_member(members, Member::Type)?;
        match value.as_text() {
            Some(name) => Ok(name),
            None => Err(self.stop(GeoFaultKind::WrongKind, "is no text")),
        }
    }

    /// Looks at the feature that an element of `features` is.
    pub(crate) fn feature_element(&mut self, value: &Json) -> Result<(), GeoFaultKind> {
        let Some(members) = value.as_object() else {
            return Err(self.stop(GeoFaultKind::NotObject, "is no object"));
        };
        let name = self.enter_type(members)?;
        if name != "Feature" {
            return Err(self.stop_type(name, "not \"Feature\""));
        }
        self.leave();
        self.feature(members)
    }

    /// Looks at the feature with these members, whose type was looked at.
    pub(crate) fn feature(&mut self, members: &[(OwnText, Json)]) -> Result<(), GeoFaultKind> {
        self.identity(members)?;
        match self.enter_object_if(members, Member::Geometry)? {
            None => Ok(()),
            Some(geometry) => self.geometry(geometry),
        }
    }

    /// Looks at the identifier and the properties of a feature with these members.
    pub(crate) fn identity(&mut self, members: &[(OwnText, Json)]) -> Result<(), GeoFaultKind> {
        match self.enter_if(members, Member::Id)? {
            None | Some(Json::Null | Json::Text(_) | Json::Number(_)) => self.leave(),
            Some(_) => {
                return Err(self.stop(
                    GeoFaultKind::WrongKind,
                    "is neither a text nor a number nor null",
                ));
            }
        }
        let _properties = self.enter_object_if(members, Member::Properties)?;
        self.leave();
        Ok(())
    }

    /// The members of the object that the member of this name is, if it is there and isn't null. It is entered.
    pub(crate) fn enter_object_if<'a>(
        &mut self,
        members: &'a [(OwnText, Json)],
        member: Member,
    ) -> Result<Option<&'a [(OwnText, Json)]>, GeoFaultKind> {
        match self.enter_if(members, member)? {
            None | Some(Json::Null) => Ok(None),
            Some(Json::Object(inner)) => Ok(Some(inner.as_slice())),
            Some(_) => Err(self.stop(GeoFaultKind::WrongKind, "is neither an object nor null")),
        }
    }

    /// The type of the geometry with these members.
    fn geometry_kind(&mut self, members: &[(OwnText, Json)]) -> Result<GeometryType, GeoFaultKind> {
        let name = self.enter_type(members)?;
        match geometry_type(name) {
            Some(kind) => {
                self.leave();
                Ok(kind)
            }
            None => Err(self.stop_type(name, geometry_words(name))),
        }
    }

    /// Looks at the geometry with these members.
    fn geometry(&mut self, members: &[(OwnText, Json)]) -> Result<(), GeoFaultKind> {
        let kind = self.geometry_kind(members)?;
        self.typed_geometry(kind, members, LAYER_DEPTH)
    }

    /// Looks at the geometry of this type with these members.
    #[cycle(geometries)]
    pub(crate) fn typed_geometry(
        &mut self,
        kind: GeometryType,
        members: &[(OwnText, Json)],
        depth_left: u32,
    ) -> Result<(), GeoFaultKind> {
        let coordinates = match kind {
            GeometryType::Collection => {
                return self.collection(members, depth_left);
            }
            GeometryType::Coordinates(coordinates) => coordinates,
        };
        let value = self.enter_member(members, Member::Coordinates)?;
        self.coordinates(coordinates, value)?;
        self.leave();
        Ok(())
    }

    /// Looks at the collection with these members.
    #[cycle(geometries)]
    fn collection(
        &mut self,
        members: &[(OwnText, Json)],
        depth_left: u32,
    ) -> Result<(), GeoFaultKind> {
        for (index, value) in self
            .enter_array(members, Member::Geometries)?
            .iter()
            .enumerate()
        {
            self.enter(Step::Element(index))?;
            let Some(inner) = value.as_object() else {
                return Err(self.stop(GeoFaultKind::WrongKind, "is no object"));
            };
            let kind = self.geometry_kind(inner)?;
            if depth_left > 0 {
                self.typed_geometry(kind, inner, depth_left - 1)?;
            }
            self.leave();
        }
        self.leave();
        Ok(())
    }

    /// Looks at this value as the `coordinates` of a geometry of this type.
    fn coordinates(
        &mut self,
        coordinates: CoordinatesType,
        value: &Json,
    ) -> Result<(), GeoFaultKind> {
        let values = self.elements(value)?;
        if values.is_empty() {
            return Ok(());
        }
        match coordinates {
            CoordinatesType::Point => self.position(value),
            CoordinatesType::MultiPoint => self.positions(values),
            CoordinatesType::LineString => self.line(values),
            CoordinatesType::MultiLineString => self.lines(values),
            CoordinatesType::Polygon => self.rings(values),
            CoordinatesType::MultiPolygon => self.polygons(values),
        }
    }

    /// Looks at a position.
    fn position(&mut self, value: &Json) -> Result<(), GeoFaultKind> {
        match position(value, self.exact) {
            Ok(_) => Ok(()),
            Err(kind) => Err(self.stop(kind, position_words(kind, value))),
        }
    }

    /// Looks at positions.
    fn positions(&mut self, values: &[Json]) -> Result<(), GeoFaultKind> {
        for (index, value) in values.iter().enumerate() {
            self.enter(Step::Element(index))?;
            self.position(value)?;
            self.leave();
        }
        Ok(())
    }

    /// Looks at a line, which is left out where it is empty.
    fn line(&mut self, values: &[Json]) -> Result<(), GeoFaultKind> {
        self.positions(values)?;
        if values.len() == 1 {
            return Err(self.stop(GeoFaultKind::ShortLine, "is a line of one position"));
        }
        Ok(())
    }

    /// Looks at a ring, which is left out where it is empty.
    fn ring(&mut self, values: &[Json]) -> Result<(), GeoFaultKind> {
        self.positions(values)?;
        if !values.is_empty() && values.len() < 4 {
            return Err(self.stop(
                GeoFaultKind::ShortRing,
                "is a ring of fewer than four positions",
            ));
        }
        if !is_closed(values) {
            return Err(self.stop(
                GeoFaultKind::OpenRing,
                "is a ring whose last position isn't its first",
            ));
        }
        Ok(())
    }

    /// Looks at lines.
    fn lines(&mut self, values: &[Json]) -> Result<(), GeoFaultKind> {
        for (index, value) in values.iter().enumerate() {
            self.enter(Step::Element(index))?;
            let line = self.elements(value)?;
            self.line(line)?;
            self.leave();
        }
        Ok(())
    }

    /// Looks at the rings of a polygon.
    fn rings(&mut self, values: &[Json]) -> Result<(), GeoFaultKind> {
        for (index, value) in values.iter().enumerate() {
            self.enter(Step::Element(index))?;
            let ring = self.elements(value)?;
            self.ring(ring)?;
            self.leave();
        }
        Ok(())
    }

    /// Looks at polygons.
    fn polygons(&mut self, values: &[Json]) -> Result<(), GeoFaultKind> {
        for (index, value) in values.iter().enumerate() {
            self.enter(Step::Element(index))?;
            let rings = self.elements(value)?;
            self.rings(rings)?;
            self.leave();
        }
        Ok(())
    }
}

/// What is wrong with a value that is no position.
fn position_words(kind: GeoFaultKind, value: &Json) -> &'static str {
    match kind {
        GeoFaultKind::ShortPosition => "is a position of fewer than two numbers",
        GeoFaultKind::Range => "has a coordinate beyond 10^8",
        GeoFaultKind::Inexact => "has a coordinate of more than nine decimal places",
        _ => match value.as_array() {
            None => "is no position, which is an array of two numbers",
            Some(_) => "has a coordinate that is no number",
        },
    }
}

/// The position that a value is.
fn position_of(value: &Json) -> Option<Position> {
    position(value, false).ok()
}

/// Whether these positions end where they begin.
fn is_closed(values: &[Json]) -> bool {
    match values {
        [] => true,
        [_] => true,
        [first, .., last] => position_of(first) == position_of(last),
    }
}
