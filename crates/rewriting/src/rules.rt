//! What each rule does at a place of the walk, but for carry over.
use crate::finding::{flip_in, left_in, turn_in};
use crate::pentagon::{five_flips, pentagon_at, swap_and_turns};
use crate::run::SwapAndTurns;
use crate::site::Site;
use rewriting_records::fault::RewritingFault;
use triangulations::darts::Edge;
use triangulations::step::Step;

impl Site<'_> {
    ghost use Rattle.std.specs.Prelude.{◌≡◌, map, None, Ok};
    ghost use Rattle.triangulations.specs.Meaning.{meant};
    ghost use Rattle.triangulations.specs.Boards.{on};
    ghost use Rattle.rewriting_records.specs.declared.record.Rewriting.TheVariants.{InsertPair};
    ghost use Rattle.relations.specs.Pentagons.{pentagon_at};
    ghost use Rattle.relations.specs.Judging.{dropped, joined, split, flipped_edge, parted, of_two, closed, opened, change};
    ghost use Rattle.rewriting.specs.Rewritten.{run_meant, turned_swap};
    ghost use Rattle.rewriting.specs.Sites.{first, second, Makes};

    /// Puts `new` in place of `old`, where the steps from the place on begin with it.
    pub fn substitute(&mut self, old: &[Step], new: &[Step]) -> Result<(), RewritingFault>
        ensures { Makes self.old self.new result (Ok (record { old = map meant old.now; new = map meant new.now })) }
    {
        let place = self.place;
        if !self.walk.begins(place, old) {
            return Err(self.no_form());
        }
        self.walk
            .replace(place, old.len(), new)
            .map_err(|_| RewritingFault::TooLong)
    }

    /// Two steps of which the second undoes the first are dropped.
    pub fn drop_pair(&mut self) -> Result<(), RewritingFault>
        ensures { Makes self.old self.new result (dropped self.old.place (first self.old)) }
    {
        let first = self.first()?;
        self.substitute(&[first, first.inverse()], &[])
    }

    /// A step that is legal there is put in, and the one that undoes it.
    pub fn insert_pair(&mut self, step: Step) -> Result<(), RewritingFault>
        ensures { Makes self.old self.new result (change self.old.place (on self.old.there.now) (InsertPair step) None None) }
    {
        self.there.step(step).or(Err(self.no_condition()))?;
        self.substitute(&[], &[step, step.inverse()])
    }

    /// Two left flips of an edge become its turn.
    pub fn join_double(&mut self) -> Result<(), RewritingFault>
        ensures { Makes self.old self.new result (joined self.old.place (first self.old)) }
    {
        let edge = left_in(self.first()?).ok_or(self.no_form())?;
        self.substitute(&[Step::left(edge), Step::left(edge)], &[Step::turn(edge)])
    }

    /// The turn of an edge that can be flipped there becomes two left flips.
    pub fn split_double(&mut self) -> Result<(), RewritingFault>
        ensures { Makes self.old self.new result (split self.old.place (on self.old.there.now).next (first self.old)) }
    {
        // A rule of the project: guards on the steps found and on the triangulation there.
        match turn_in(self.first()?) {
            Some(edge) if self.there.is_flippable(edge) => {
                self.substitute(&[Step::turn(edge)], &[Step::left(edge), Step::left(edge)])
            }
            Some(_) => Err(self.no_condition()),
            None => Err(self.no_form()),
        }
    }

    /// Two flips whose edges share no triangle there change places.
    pub fn exchange(&mut self) -> Result<(), RewritingFault>
        ensures { Makes self.old self.new result (of_two self.old.place (λ s s'. parted self.old.place (on self.old.there.now).next s s' (flipped_edge s) (flipped_edge s')) (first self.old) (second self.old)) }
    {
        let first = flip_in(self.first()?).ok_or(self.no_form())?;
        let second = flip_in(self.second()?).ok_or(self.no_form())?;
        if self.there.shares(first.edge, second.edge) {
            return Err(self.no_condition());
        }
        self.substitute(
            &[Step::Flip(first), Step::Flip(second)],
            &[Step::Flip(second), Step::Flip(first)],
        )
    }

    // What the one way of a pentagon takes out the other puts in: a line each, and what they share is `turned_swap`.
    /// Five left flips in turn become a swap and turns, where the two edges make a pentagon there.
    pub fn close_pentagon(&mut self, e: Edge, f: Edge) -> Result<(), RewritingFault>
        ensures { Makes self.old self.new result (closed self.old.place (on self.old.there.now).next e f (pentagon_at (on self.old.there.now).next e f)) }
    {
        let swap = self.turned_swap(e, f)?;
        self.substitute(&five_flips(e, f), swap.as_slice())
    }

    /// A swap and turns become five left flips in turn, where the two edges make a pentagon there.
    pub fn open_pentagon(&mut self, e: Edge, f: Edge) -> Result<(), RewritingFault>
        ensures { Makes self.old self.new result (opened self.old.place (on self.old.there.now).next e f (pentagon_at (on self.old.there.now).next e f)) }
    {
        let swap = self.turned_swap(e, f)?;
        self.substitute(swap.as_slice(), &five_flips(e, f))
    }

    // The swap and turns that the five flips of two edges amount to, where they make a pentagon there.
    // In line: without the hint both ways of a pentagon took half as long again.
    #[inline]
    fn turned_swap(&self, e: Edge, f: Edge) -> Result<SwapAndTurns, RewritingFault>
        ensures { run_meant result ≡ turned_swap self.now.place (on self.now.there.now).next e f (pentagon_at (on self.now.there.now).next e f) }
    {
        let (x, y) = pentagon_at(self.there, e, f).ok_or(self.no_condition())?;
        Ok(swap_and_turns(self.there, e, f, x, y))
    }
}
