/// A dart: edge `e` has the darts `2 * e` and `2 * e + 1`, its two directions.
pub type Dart = u8;

/// An edge, by its name.
pub type Edge = u8;

/// At most so many edges has a surface.
pub const MOST_EDGES: u8 = 64;
