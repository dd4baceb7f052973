// Types in another spelling.

/// The types of geometries, and what is said of another spelling.
const GEOMETRIES: [(&str, &str); 7] = [
    ("Point", "not \"Point\""),
    ("MultiPoint", "not \"MultiPoint\""),
    ("LineString", "not \"LineString\""),
    ("MultiLineString", "not \"MultiLineString\""),
    ("Polygon", "not \"Polygon\""),
    ("MultiPolygon", "not \"MultiPolygon\""),
    ("GeometryCollection", "not \"GeometryCollection\""),
];

/// The other types of GeoJSON.
const FEATURES: [(&str, &str); 2] = [
    ("Feature", "not \"Feature\""),
    ("FeatureCollection", "not \"FeatureCollection\""),
];

/// What is said of a type that is one of these but for the case of its letters.
fn spelled(types: &[(&'static str, &'static str)], name: &str) -> Option<&'static str> {
    for (right, words) in types {
        if name.eq_ignore_ascii_case(right) {
            return Some(*words);
        }
    }
    None
}

/// What is wrong with the type of a geometry, which is none of the seven.
pub(crate) fn geometry_words(name: &str) -> &'static str {
    spelled(&GEOMETRIES, name).unwrap_or("none of the seven types of geometries")
}

/// What is wrong with the type of a layer, which is none of the nine.
pub(crate) fn layer_words(name: &str) -> &'static str {
    match spelled(&FEATURES, name) {
        Some(words) => words,
        None => spelled(&GEOMETRIES, name).unwrap_or("none of the nine types of GeoJSON"),
    }
}
