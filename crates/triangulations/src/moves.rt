ghost use Rattle.std.specs.Prelude.{◌≡◌, ℕ, ◌<◌, ◌≤◌, length, if◌then◌else◌, Some, None, Decides, is_ok, slice_index};
ghost use Rattle.triangulations.specs.Triangulations.{Lawful, flippable, meets, shares, together, partner};
ghost use Rattle.triangulations.specs.Steps.{exchanged, renamed, LegalStep, apply_step};
ghost use Rattle.triangulations.specs.Stored.{Within, written};
ghost use Rattle.triangulations.specs.Meaning.{meant, meant_flip, meant_label, naming, NamesLabel};
ghost use Rattle.triangulations.specs.Boards.{table, on, around};

use crate::board::Board;
use crate::darts::{Dart, Edge, MOST_EDGES};
use crate::quadrilateral::Quadrilateral;
use crate::step::{Flip, Label, Step};
use std::array;

/// The step is not legal on the triangulation.
#[derive(Clone, Copy, PartialEq, Eq, Debug)]
pub struct NotLegal;

impl Board {
    /// How many edges the triangulation has.
    pub fn edges(&self) -> u8
        ensures value { result ≡ (on self.now).edges }
        ensures few { result ≤ 64 }
    {
        self.table.edges
    }

    /// The dart that follows `dart` in its triangle, or `None` for a dart that lies outside or does not exist.
    pub fn after(&self, dart: Dart) -> Option<Dart>
        ensures { result ≡ (on self.now).next dart }
    {
        self.table.follower(dart)
    }

    /// Whether `x` lies in the triangle of `d`.
    pub fn together(&self, d: Dart, x: Dart) -> bool
        ensures { result ≡ together (table self.now) d x }
    {
        self.table.together(d, x)
    }

    /// Whether both darts of the edge are inside, in different triangles.
    pub fn is_flippable(&self, edge: Edge) -> bool
        ensures { result ≡ flippable (on self.now).next edge }
    {
        if edge >= MOST_EDGES {
            return false;
        }
        let d = 2 * edge;
        let p = d + 1;
        self.table.is_inside(d) && self.table.is_inside(p) && !self.together(d, p)
    }

    /// The two triangles at an edge, where it can be flipped.
    pub fn around(&self, edge: Edge) -> Option<Quadrilateral>
        ensures { result ≡ (if flippable (on self.now).next edge then Some (around (on self.now).next edge) else None) }
    {
        if !self.is_flippable(edge) {
            return None;
        }
        let d = 2 * edge;
        let p = d + 1;
        let a = self.table.after(d);
        let b = self.table.after(a);
        let c = self.table.after(p);
        let g = self.table.after(c);
        Some(Quadrilateral { d, a, b, p, c, g })
    }

    /// Whether the two edges share a triangle: a dart of each lies in it.
    // Two edges or darts go one by one: the definitions take them so, and a struct would be taken apart in each clause.
    pub fn shares(&self, e: Edge, f: Edge) -> bool
        ensures { result ≡ shares (on self.now).next e f }
    {
        if e >= MOST_EDGES || f >= MOST_EDGES {
            return false;
        }
        self.meets(2 * e, f) || self.meets(2 * e + 1, f)
    }

    /// Does a step where it is legal; else the board stays as it was.
    pub fn step(&mut self, step: Step) -> Result<(), NotLegal>
        ensures legal { Decides (is_ok result) (LegalStep (meant step) (on self.old)) }
        ensures moved { on self.new ≡ (if is_ok result then apply_step (meant step) (on self.old) else on self.old) }
        ensures lawful { Lawful (on self.new) }
    {
        match step {
            Step::Flip(flip) => self.flip(flip),
            Step::Label(label) => self.relabel(label),
        }
    }

    // Whether the edge `f` has a dart in the triangle of `d`.
    fn meets(&self, d: Dart, f: Edge) -> bool
        requires { f < 64 }
        ensures { result ≡ meets (table self.now) d f }
    {
        self.table.is_inside(d) && (self.together(d, 2 * f) || self.together(d, 2 * f + 1))
    }

    fn flip(&mut self, flip: Flip) -> Result<(), NotLegal>
        ensures legal { is_ok result ≡ flippable (table self.old) flip.edge }
        ensures moved { on self.new ≡ (if is_ok result then apply_step (meant_flip flip) (on self.old) else on self.old) }
    {
        let around = self.around(flip.edge).ok_or(NotLegal)?;
        write_triangle(
            &mut self.table.next,
            around.begun_by(around.p, flip.side.other()),
        );
        write_triangle(&mut self.table.next, around.begun_by(around.d, flip.side));
        Ok(())
    }

    fn relabel(&mut self, label: Label) -> Result<(), NotLegal>
        ensures legal { Decides (is_ok result) (NamesLabel label self.old.table.edges) }
        ensures moved { on self.new ≡ (if is_ok result then apply_step (meant_label label) (on self.old) else on self.old) }
    {
        if !label.names(self.table.edges) {
            return Err(NotLegal);
        }
        let old = self.table;
        self.table.next = array::from_fn(|d| label.renamed(old.follower(label.named(d as u8))));
        Ok(())
    }
}

// Writes a triangle by its darts in following order.
fn write_triangle(next: &mut [Option<Dart>], darts: [Dart; 3])
    requires { Within (length next.old) darts }
    ensures { next.new ≡ written (slice_index darts 0) (slice_index darts 1) (slice_index darts 2) next.old }
{
    let [x, y, z] = darts;
    next[z as usize] = Some(x);
    next[y as usize] = Some(z);
    next[x as usize] = Some(y);
}

/// The other dart of the same edge.
pub fn partner(dart: Dart) -> Dart
    ensures { result ≡ partner dart }
{
    if dart % 2 == 0 { dart + 1 } else { dart - 1 }
}

/// The edge `k`, with `e` and `f` exchanged.
pub fn exchanged(e: Edge, f: Edge, k: Edge) -> Edge
    ensures { result ≡ exchanged e f k }
{
    if k == e {
        f
    } else if k == f {
        e
    } else {
        k
    }
}

impl Label {
    // Whether it names edges of so many, a swap the smaller first.
    fn names(self, edges: u8) -> bool
        ensures { Decides result (NamesLabel self edges) }
    {
        match self {
            Label::Turn(e) => e < edges,
            Label::Swap(e, f) => e < f && f < edges,
        }
    }

    // The new name of a dart.
    fn named(self, dart: Dart) -> Dart
        requires { NamesLabel self 64 }
        ensures { result ≡ naming self dart }
    {
        match self {
            Label::Turn(e) => { if dart / 2 == e { partner(dart) } else { dart } }
            Label::Swap(e, f) => 2 * exchanged(e, f, dart / 2) + dart % 2,
        }
    }

    fn renamed(self, dart: Option<Dart>) -> Option<Dart>
        requires { NamesLabel self 64 }
        ensures { result ≡ renamed (naming self) dart }
    {
        dart.map(|a| self.named(a))
    }
}
