ghost use Rattle.std.specs.Prelude.{◌≡◌, ◌*◌, ◌≤◌, length};
ghost use Rattle.triangulations.specs.Triangulations.{after, inside, together};
ghost use Rattle.triangulations.specs.Stored.{table_of, all_below, within, turns_back, covers, lawful_list};

use crate::darts::{Dart, Edge};

/// The memory for followers of the darts of so many edges, whether lawful or not.
#[derive(Clone, Copy, PartialEq, Eq, Debug)]
pub(crate) struct Table {
    pub(crate) edges: u8,
    pub(crate) next: [Option<Dart>; 128],
    ghost few: { edges ≤ 64 },
    ghost full: { length next ≡ 128 },
}

impl Table {
    // The dart that follows `dart`.
    pub(crate) fn follower(&self, dart: Dart) -> Option<Dart>
        ensures { result ≡ table_of self.now.next dart }
    {
        self.next.get(dart as usize).copied().flatten()
    }

    // The dart that follows `dart`, or `dart` itself where none does.
    pub(crate) fn after(&self, dart: Dart) -> Dart
        ensures { result ≡ after (table_of self.now.next) dart }
    {
        self.follower(dart).unwrap_or(dart)
    }

    pub(crate) fn is_inside(&self, dart: Dart) -> bool
        ensures { result ≡ inside (table_of self.now.next) dart }
    {
        self.follower(dart).is_some()
    }

    // Whether `x` lies in the triangle of `d`.
    pub(crate) fn together(&self, d: Dart, x: Dart) -> bool
        ensures { result ≡ together (table_of self.now.next) d x }
    {
        let a = self.after(d);
        x == d || x == a || x == self.after(a)
    }

    /// Whether the triangulation is lawful.
    pub(crate) fn is_lawful(&self) -> bool
        ensures { result ≡ lawful_list self.now.edges self.now.next }
    {
        self.all_within() && self.all_turn_back() && self.all_covered()
    }

    // Three chains, and not one function: so each law of the test has its name, and a proof of three lines.
    fn all_within(&self) -> bool
        ensures { result ≡ all_below (length self.now.next) (λ d. within self.now.edges d (table_of self.now.next d)) }
    {
        (0..128).all(|d| self.is_within(d))
    }

    fn all_turn_back(&self) -> bool
        ensures { result ≡ all_below (2 * self.now.edges) (λ d. turns_back (table_of self.now.next) d (table_of self.now.next d)) }
    {
        (0..2 * self.edges).all(|d| self.turns_back(d))
    }

    fn all_covered(&self) -> bool
        ensures { result ≡ all_below self.now.edges (covers (table_of self.now.next)) }
    {
        (0..self.edges).all(|e| self.is_covered(e))
    }

    // Whether only a dart of the edges has a follower.
    fn is_within(&self, dart: Dart) -> bool
        ensures { result ≡ within self.now.edges dart (table_of self.now.next dart) }
    {
        dart < 2 * self.edges || !self.is_inside(dart)
    }

    // Whether the follower of `dart`, if it has one, is inside, is another dart, and leads back.
    fn turns_back(&self, dart: Dart) -> bool
        ensures { result ≡ turns_back (table_of self.now.next) dart (table_of self.now.next dart) }
    {
        self.follower(dart).is_none_or(|a| self.is_inside(a)
            && a != dart
            && self.after(self.after(a)) == dart)
    }

    // Whether a dart of the edge is inside.
    fn is_covered(&self, edge: Edge) -> bool
        requires { edge ≤ 127 }
        ensures { result ≡ covers (table_of self.now.next) edge }
    {
        self.is_inside(2 * edge) || self.is_inside(2 * edge + 1)
    }
}
