ghost use Rattle.std.specs.Prelude.{take};
ghost use Rattle.triangulations.specs.Steps.{Legal};
ghost use Rattle.triangulations.specs.Boards.{on};
ghost use Rattle.relations.specs.Judging.{change, judge, Judges};
ghost use Rattle.walks.specs.Walks.{held, moves};
ghost use Rattle.rewriting.specs.Rewritten.{Answers};

use crate::replay::replay;
use crate::site::Site;
use rewriting_records::fault::RewritingFault;
use rewriting_records::record::{Record, Rewriting};
use triangulations::board::Board;
use triangulations::step::Side;
use walks::walk::Walk;

/// Rewrites a walk from the triangulation `table` by a record, or refuses it and leaves the walk as it was. `board` is memory
/// to work on. Refused are, in this order: a fault of the record, a place beyond the walk, steps before the place that are no
/// walk, steps that lack the rule's form, a condition on edges that fails there (for a pentagon, before the form), and a walk
/// of more than 256 steps.
#[tactic(auto, using(relations::proofs::Judged::judges, triangulations::proofs::Moved::law))]
pub fn rewrite(
    table: &Board,
    walk: &mut Walk,
    asked: Record,
    board: &mut Board,
) -> Result<(), RewritingFault>
    ensures judged { Answers (held walk.old) result (held walk.new) (judge (on table.now) (moves walk.old) asked) }
    ensures listed { Legal (take asked.place (moves walk.old)) (on table.now) → Judges (on table.now) (moves walk.old) asked }
{
    let place = asked.place as usize;
    let rewriting = asked
        .rewriting(table.edges())
        .map_err(|fault| RewritingFault::BadRecord { place, fault })?;
    if place > walk.len() {
        return Err(RewritingFault::PlaceBeyond { place });
    }
    *board = *table;
    replay(board, &walk.steps()[..place])?;
    let mut site = Site {
        walk,
        there: board,
        place,
    };
    site.apply(rewriting)
}

impl Site<'_> {
    ghost use Rattle.rewriting.specs.Sites.{first, second, Makes};

    // Does a rewriting there. The rewritings are a closed list, of which each arm names one.
    fn apply(&mut self, rewriting: Rewriting) -> Result<(), RewritingFault>
        ensures { Makes self.old self.new result (change self.old.place (on self.old.there.now) rewriting (first self.old) (second self.old)) }
    {
        match rewriting {
            Rewriting::DropPair => self.drop_pair(),
            Rewriting::InsertPair(step) => self.insert_pair(step),
            Rewriting::JoinDouble => self.join_double(),
            Rewriting::SplitDouble => self.split_double(),
            Rewriting::Exchange => self.exchange(),
            Rewriting::CarryRight => self.carry(Side::Right),
            Rewriting::CarryLeft => self.carry(Side::Left),
            Rewriting::ClosePentagon(e, f) => self.close_pentagon(e, f),
            Rewriting::OpenPentagon(e, f) => self.open_pentagon(e, f),
        }
    }
}
