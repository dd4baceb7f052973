// The way to the first value of a topology that isn't of its kind, or to a member that is missing or stands there twice, in the order in which
// faults are answered.
use crate::type_names::geometry_words;
use crate::walk::{Member, Step, Walk};
use geojson_meaning::{CoordinatesType, GeoFaultKind, GeometryType, geometry_type};
use json_reading::TOPOLOGY_DEPTH;
use json_value::{Json, OwnText};

/// No arc has an index beyond it.
const INDEX_LIMIT: i128 = 9_223_372_036_854_775_807;

/// Whether an array begins with two numbers.
fn begins_with_numbers(values: &[Json]) -> bool {
    matches!(values, [Json::Number(_), Json::Number(_), ..])
}

impl Walk {
    /// Looks at the transform among these members.
    pub(crate) fn transform(&mut self, members: &[(OwnText, Json)]) -> Result<(), GeoFaultKind> {
        match self.enter_object_if(members, Member::Transform)? {
            None => Ok(()),
            Some(inner) => {
                self.pair(inner, Member::Scale)?;
                self.pair(inner, Member::Translate)
            }
        }
    }

    /// Looks at two numbers of a transform.
    fn pair(&mut self, members: &[(OwnText, Json)], member: Member) -> Result<(), GeoFaultKind> {
        let values = self.enter_array(members, member)?;
        if !begins_with_numbers(values) {
            return Err(self.stop(GeoFaultKind::WrongKind, "is no array of two numbers"));
        }
        self.leave();
        Ok(())
    }

    /// Looks at the arc of this number among these members.
    pub(crate) fn arc(
        &mut self,
        members: &[(OwnText, Json)],
        number: usize,
    ) -> Result<(), GeoFaultKind> {
        match self.enter_array(members, Member::Arcs)?.get(number) {
            None => Ok(()),
            Some(value) => {
                self.enter(Step::Element(number))?;
                let positions = self.elements(value)?;
                self.cells(positions)
            }
        }
    }

    /// Looks at positions of a topology.
    fn cells(&mut self, values: &[Json]) -> Result<(), GeoFaultKind> {
        for (index, value) in values.iter().enumerate() {
            self.enter(Step::Element(index))?;
            self.cell(value)?;
            self.leave();
        }
        Ok(())
    }

    /// Looks at a position of a topology.
    fn cell(&mut self, value: &Json) -> Result<(), GeoFaultKind> {
        let words = match value.as_array() {
            None => "is no position, which is an array of two numbers",
            Some(values) if begins_with_numbers(values) => return Ok(()),
            Some([_, _, ..]) => "has a coordinate that is no number",
            Some(_) => "is a position of fewer than two numbers",
        };
        Err(self.stop(GeoFaultKind::WrongKind, words))
    }

    /// The members of an object.
    fn members<'a>(&mut self, value: &'a Json) -> Result<&'a [(OwnText, Json)], GeoFaultKind> {
        match value.as_object() {
            Some(members) => Ok(members),
            None => Err(self.stop(GeoFaultKind::WrongKind, "is no object")),
        }
    }

    /// The type of a geometry of a topology, or nothing where it is null.
    fn shape_kind(
        &mut self,
        members: &[(OwnText, Json)],
    ) -> Result<Option<GeometryType>, GeoFaultKind> {
        let kind = match self.enter_member(members, Member::Type)? {
            Json::Null => None,
            Json::Text(name) => match geometry_type(name.as_str()) {
                Some(kind) => Some(kind),
                None => {
                    let words = geometry_words(name.as_str());
                    return Err(self.stop_type(name.as_str(), words));
                }
            },
            _ => return Err(self.stop(GeoFaultKind::WrongKind, "is neither a text nor null")),
        };
        self.leave();
        Ok(kind)
    }

    /// Looks at an object of a topology, which is a feature where it is no collection.
    pub(crate) fn topology_object(&mut self, value: &Json) -> Result<(), GeoFaultKind> {
        let members = self.members(value)?;
        let kind = self.shape_kind(members)?;
        if !matches!(kind, Some(GeometryType::Collection)) {
            self.identity(members)?;
        }
        self.shape(kind, members, TOPOLOGY_DEPTH)
    }

    /// Looks at a feature of a topology.
    pub(crate) fn topology_feature(&mut self, value: &Json) -> Result<(), GeoFaultKind> {
        let members = self.members(value)?;
        let kind = self.shape_kind(members)?;
        self.identity(members)?;
        self.shape(kind, members, TOPOLOGY_DEPTH)
    }

    /// Looks at what a geometry of this type is made of.
    #[cycle(shapes)]
    fn shape(
        &mut self,
        kind: Option<GeometryType>,
        members: &[(OwnText, Json)],
        depth_left: u32,
    ) -> Result<(), GeoFaultKind> {
        match kind {
            None => Ok(()),
            Some(GeometryType::Collection) => self.shapes(members, depth_left),
            Some(GeometryType::Coordinates(kind)) => self.parts(kind, members),
        }
    }

    /// Looks at the geometries of a collection with these members.
    #[cycle(shapes)]
    fn shapes(&mut self, members: &[(OwnText, Json)], depth_left: u32) -> Result<(), GeoFaultKind> {
        for (index, value) in self
            .enter_array(members, Member::Geometries)?
            .iter()
            .enumerate()
        {
            self.enter(Step::Element(index))?;
            let inner = self.members(value)?;
            let kind = self.shape_kind(inner)?;
            if depth_left > 0 {
                self.shape(kind, inner, depth_left - 1)?;
            }
            self.leave();
        }
        self.leave();
        Ok(())
    }

    /// Looks at the positions or the arc indexes of a geometry of this type.
    fn parts(
        &mut self,
        kind: CoordinatesType,
        members: &[(OwnText, Json)],
    ) -> Result<(), GeoFaultKind> {
        match kind {
            CoordinatesType::Point => {
                let value = self.enter_member(members, Member::Coordinates)?;
                self.point(value)?;
            }
            CoordinatesType::MultiPoint => {
                let values = self.enter_array(members, Member::Coordinates)?;
                self.cells(values)?;
            }
            CoordinatesType::LineString => self.indexes(members, 1)?,
            CoordinatesType::MultiLineString | CoordinatesType::Polygon => self.indexes(
                members, 2,
            )?,
            CoordinatesType::MultiPolygon => self.indexes(members, 3)?,
        }
        self.leave();
        Ok(())
    }

    /// Looks at the coordinates of a Point, of which an empty array is left out.
    fn point(&mut self, value: &Json) -> Result<(), GeoFaultKind> {
        let values = self.elements(value)?;
        if values.is_empty() {
            return Ok(());
        }
        self.cell(value)
    }

    /// Looks at an arc index.
    fn index(&mut self, value: &Json) -> Result<(), GeoFaultKind> {
        let Some(number) = value.as_number() else {
            return Err(self.stop(GeoFaultKind::WrongKind, "is no number, as an arc index is"));
        };
        match number.scaled(0, INDEX_LIMIT) {
            Ok(scaled) if !scaled.exact => {
                Err(self.stop(
                    GeoFaultKind::WrongKind,
                    "is no whole number, as an arc index is",
                ))
            }
            _ => Ok(()),
        }
    }

    /// Looks at the arc indexes of a geometry, which stand in this many arrays, one in the other.
    fn indexes(&mut self, members: &[(OwnText, Json)], arrays: u32) -> Result<(), GeoFaultKind> {
        let value = self.enter_member(members, Member::Arcs)?;
        self.indexes_in(value, arrays)
    }

    /// Looks at the arc indexes in this value, which stand in this many arrays, one in the other.
    fn indexes_in(&mut self, value: &Json, arrays: u32) -> Result<(), GeoFaultKind> {
        if arrays == 0 {
            return self.index(value);
        }
        for (number, inner) in self.elements(value)?.iter().enumerate() {
            self.enter(Step::Element(number))?;
            self.indexes_in(inner, arrays - 1)?;
            self.leave();
        }
        Ok(())
    }
}
