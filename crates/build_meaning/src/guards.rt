// What reduction may not do.

/// What is asked of reduction beside its level.
#[derive(Clone, Copy, Debug)]
pub struct Guards {
    /// No crossing may be made: all arcs are reduced at once, and a point is removed only where its triangle holds no position but those
    /// of its neighbours, and no other segment joins these, where they are two.
    pub no_crossings: bool,
    /// Shapes stay: all arcs are reduced at once, and in each feature the outer ring that encloses most, of those with four positions or more,
    /// keeps four of them and is never left out.
    pub keep_shapes: bool,
}
