/// A corner of a polygon; the corners are counted counterclockwise from 0.
pub type Corner = u8;

/// A diagonal of a polygon, from its smaller corner to its larger.
#[derive(Clone, Copy, PartialEq, Eq, Debug, Default)]
pub struct Diagonal {
    pub low: Corner,
    pub high: Corner,
}
