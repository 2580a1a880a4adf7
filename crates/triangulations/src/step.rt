use crate::darts::Edge;

/// At most so many steps has a walk.
pub const MOST_STEPS: usize = 256;

/// The direction of a flip.
#[derive(Clone, Copy, PartialEq, Eq, Debug)]
pub enum Side {
    Left,
    Right,
}

/// A flip of an edge.
#[derive(Clone, Copy, PartialEq, Eq, Debug)]
pub struct Flip {
    pub side: Side,
    pub edge: Edge,
}

/// A label step: it renames darts and leaves the triangles.
#[derive(Clone, Copy, PartialEq, Eq, Debug)]
pub enum Label {
    /// Exchanges the two darts of an edge.
    Turn(Edge),
    /// Exchanges two edges, the smaller name first.
    Swap(Edge, Edge),
}

/// A step of a walk.
#[derive(Clone, Copy, PartialEq, Eq, Debug)]
pub enum Step {
    Flip(Flip),
    Label(Label),
}
