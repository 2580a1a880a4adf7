ghost use Rattle.std.specs.Prelude.{◌≡◌, ◌≤◌, length};

use triangulations::step::Step;

/// A walk: at most 256 steps, in a table of which the first `len` are in use.
// A walk is `Copy`, so the table stands here with its length: an `ArrayVec` is not `Copy`, and a `Copy` type with a model has
// to give its fields back, which the forgotten steps past `len` prevent.
#[derive(Clone, Copy)]
pub struct Walk {
    pub(crate) steps: [Step; 256],
    pub(crate) len: usize,
    ghost few: { len ≤ 256 },
    ghost full: { length steps ≡ 256 },
}
