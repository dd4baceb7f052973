// Where a line stands in the layers, and why it isn't written.
ghost use Rattle.std.specs.Prelude.{◌≡◌, ◌++◌, ◌∷◌, [], IfOk, IfNone, IfSome};
ghost use Rattle.geometry.specs.Addresses.{feature_address, part_address};

use owned_values::Memory;
use smallvec::SmallVec;
use std::alloc::Global;
use std::marker::Model;
use std::rc::Rc;

/// The path inside a geometry: the numbers of parts, the outermost first. Those of a group that lies in another are kept once, for everything
/// that stands in it, as lines may lie deep in groups. Up to two more numbers, as those of a polygon of a MultiPolygon and of its ring, are
/// kept in the path itself and take no allocation.
#[derive(Debug, Drop)]
pub struct AddressPath {
    group: Option<Rc<Vec<usize>>>,
    own: SmallVec<usize, 2>,
}

impl Model for AddressPath {
    ghost use Rattle.std.specs.Prelude.{List, ℕ, [], ◌++◌, Some, None};

    ghost Value = { List ℕ };

    ghost view = { λ p. elim p.group [ Some numbers ↦ numbers.value.items | None ↦ [] ] ++ p.own.items };
}

impl AddressPath {
    /// The path of a geometry that is no part of another.
    fn new(alloc: Global) -> AddressPath
        ensures { result ≡ [] }
    {
        AddressPath {
            group: None,
            own: SmallVec::new(alloc),
        }
    }

    /// The path of the part with this number.
    fn part(&self, alloc: Global, number: usize) -> Result<AddressPath, Memory>
        ensures { IfOk result (λ part. part ≡ self.now ++ number ∷ []) }
    {
        let mut own = SmallVec::from_slice(alloc, self.own.as_slice())?;
        own.push(number)?;
        Ok(AddressPath {
            group: self.group.clone()?,
            own,
        })
    }

    /// The numbers of the group, and those of the part of it.
    fn numbers(&self) -> (&[usize], &[usize])
        ensures { result.0.now ++ result.1.now ≡ self.now }
    {
        let own = self.own.as_slice();
        match &self.group {
            Some(numbers) => (numbers.as_slice(), own),
            None => (&[], own),
        }
    }

    /// The same path as that of a group: its parts share its numbers.
    fn into_group(self, alloc: Global) -> Result<AddressPath, Memory>
        ensures { IfOk result (λ path. path ≡ self) }
    {
        if self.own.is_empty() {
            return Ok(self);
        }
        let (group, own) = self.numbers();
        let mut numbers = Vec::with_capacity(alloc, group.len().saturating_add(own.len()))?;
        numbers.extend_from_slice(group)?;
        numbers.extend_from_slice(own)?;
        Ok(AddressPath {
            group: Some(Rc::new(alloc, numbers)?),
            own: SmallVec::new(alloc),
        })
    }

    /// The first number and those after it, in two parts of which one may be empty.
    pub fn split_first(&self) -> Option<(usize, &[usize], &[usize])>
        ensures none { IfNone result (self.now ≡ []) }
        ensures some { IfSome result (λ r. self.now ≡ r.0 ∷ (r.1.now ++ r.2.now)) }
    {
        let (group, own) = self.numbers();
        if let Some((first, rest)) = group.split_first() {
            return Some((*first, rest, own));
        }
        let (first, rest) = own.split_first()?;
        Some((*first, rest, &[]))
    }
}

/// Where a line or a ring stands: the layer's number, the feature's number in the layer, and the way inside its
/// geometry. The path of a LineString is empty. That of a line of a MultiLineString and of a ring of a Polygon is its
/// number, that of a ring of a MultiPolygon the polygon's number and the ring's, and inside a GeometryCollection the
/// number of the geometry stands before the geometry's own path. All numbers count from zero.
#[derive(Debug, Drop)]
pub struct Address {
    pub layer: usize,
    pub feature: usize,
    pub path: AddressPath,
}

impl Address {
    /// That of the geometry of a feature.
    pub fn of_feature(alloc: Global, layer: usize, feature: usize) -> Address
        ensures { result ≡ feature_address layer feature }
    {
        Address {
            layer,
            feature,
            path: AddressPath::new(alloc),
        }
    }

    /// That of the part with this number.
    pub fn part(&self, alloc: Global, number: usize) -> Result<Address, Memory>
        ensures { IfOk result (λ part. part ≡ part_address self.now number) }
    {
        Ok(Address {
            layer: self.layer,
            feature: self.feature,
            path: self.path.part(alloc, number)?,
        })
    }

    /// The same, as that of a group: the addresses of its parts share its path.
    pub fn into_group(self, alloc: Global) -> Result<Address, Memory>
        ensures { IfOk result (λ group. group ≡ self) }
    {
        Ok(Address {
            layer: self.layer,
            feature: self.feature,
            path: self.path.into_group(alloc)?,
        })
    }
}

/// Why a line or a ring isn't written.
#[derive(Clone, Copy, Debug, PartialEq, Eq)]
pub enum Cause {
    /// Too few positions are left once equal neighbours count as one.
    Collapsed,
    /// Too few positions are left once points were removed, or the ring encloses too little.
    Small,
    /// It is a ring whose polygon's outer ring is dropped.
    Outer,
}

/// A line or a ring that isn't written.
#[derive(Debug, Drop)]
pub struct Dropped {
    pub address: Address,
    pub cause: Cause,
}
