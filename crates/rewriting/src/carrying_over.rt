//! Carry over: a label step changes places with its neighbour.
use crate::finding::is_passed;
use crate::site::Site;
use rewriting_records::fault::RewritingFault;
use triangulations::step::{Label, Side, Step};

impl Site<'_> {
    ghost use Rattle.relations.specs.Judging.{of_two};
    ghost use Rattle.rewriting.specs.Rewritten.{carried};
    ghost use Rattle.rewriting.specs.Sites.{first, second, Makes};

    /// The label step moves past the other of the first two steps there, to the right from the first place or to the left from
    /// the second. A swap passes any step, and its two names are exchanged there; a turn passes flips and turns.
    pub fn carry(&mut self, to: Side) -> Result<(), RewritingFault>
        ensures { Makes self.old self.new result (of_two self.old.place (carried self.old.place to) (first self.old) (second self.old)) }
    {
        let place = self.place;
        let (first, second) = (self.first()?, self.second()?);
        let (label_at, step, passed) = match to {
            Side::Right => (place, first, second),
            Side::Left => (place + 1, second, first),
        };
        // A rule of the project: what is no label step is refused first, then what may be passed.
        let Step::Label(label) = step else {
            return Err(self.no_form());
        };
        if let Label::Swap(e, f) = label {
            // Both steps are there, so the walk refuses neither edit.
            self.walk.exchange(place).unwrap();
            self.walk.rename(label_at, e, f).unwrap();
            Ok(())
        } else if is_passed(passed) {
            // Nor this one, for the same reason.
            self.walk.exchange(place).unwrap();
            Ok(())
        } else {
            Err(self.no_form())
        }
    }
}
