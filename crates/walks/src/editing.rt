ghost use Rattle.std.specs.Prelude.{◌≡◌, ◌+◌, ◌-◌, ◌≤◌, [], ◌∷◌, ◌++◌, length, take, drop, if◌then◌else◌, is_ok, OnErr, nat_lt};
ghost use Rattle.std.specs.List.{slice_get, copy_within};
ghost use Rattle.walks.specs.declared.fault.EditFault.TheVariants.{NoSteps};
ghost use Rattle.walks.specs.Walks.{held, replaceable, replaced, renamed_label, renamed_named};

use crate::fault::EditFault;
use crate::table::MOST_STEPS;
use crate::walk::Walk;
use triangulations::darts::Edge;
use triangulations::moves::exchanged;
use triangulations::step::{Label, Step};

// Fewer steps than this are moved one by one.
const FEW: usize = 16;

impl Walk {
    /// Puts `new` in place of the `taken` steps from `at` on, where there are so many and the walk stays within 256 steps.
    pub fn replace(&mut self, at: usize, taken: usize, new: &[Step]) -> Result<(), EditFault>
        ensures granted { result ≡ replaceable at taken (length new.now) (length (held self.old)) }
        ensures replaced { held self.new ≡ (if is_ok result then replaced at taken new.now (held self.old) else held self.old) }
    {
        if at > self.len || taken > self.len - at {
            return Err(EditFault::NoSteps);
        }
        if new.len() > MOST_STEPS - (self.len - taken) {
            return Err(EditFault::NoRoom);
        }
        self.cut(at, taken);
        self.put_in(at, new);
        Ok(())
    }

    /// The two steps at `at` and `at + 1` change places, where there are two.
    pub fn exchange(&mut self, at: usize) -> Result<(), EditFault>
        ensures granted { result ≡ (if nat_lt (at + 1) (length (held self.old)) then Ok tt else Err NoSteps) }
        ensures exchanged { (a b : Step) → slice_get (held self.old) at ≡ Some a → slice_get (held self.old) (at + 1) ≡ Some b → held self.new ≡ replaced at 2 (b ∷ a ∷ []) (held self.old) }
        ensures kept { OnErr result (held self.new ≡ held self.old) }
        ensures length { length (held self.new) ≡ length (held self.old) }
    {
        if self.len.saturating_sub(at) < 2 {
            return Err(EditFault::NoSteps);
        }
        self.steps.swap(at, at + 1);
        Ok(())
    }

    // The names are passed one by one, as the definitions take them: each clause would take a struct of the two apart.
    /// Exchanges the names `e` and `f` in the step at `at`, where there is one.
    pub fn rename(&mut self, at: usize, e: Edge, f: Edge) -> Result<(), EditFault>
        ensures granted { result ≡ (if nat_lt at (length (held self.old)) then Ok tt else Err NoSteps) }
        ensures renamed { (s : Step) → slice_get (held self.old) at ≡ Some s → held self.new ≡ replaced at 1 (renamed_named e f s ∷ []) (held self.old) }
        ensures kept { OnErr result (held self.new ≡ held self.old) }
        ensures length { length (held self.new) ≡ length (held self.old) }
    {
        if at >= self.len {
            return Err(EditFault::NoSteps);
        }
        // By index: a proof knows nothing of what is written through a slice's `get_mut`.
        rename_step(&mut self.steps[at], e, f);
        Ok(())
    }

    // Takes the `taken` steps from `at` on out.
    fn cut(&mut self, at: usize, taken: usize)
        requires { at + taken ≤ self.old.len }
        ensures len { self.new.len ≡ self.old.len - taken }
        ensures rest { held self.new ≡ take at (held self.old) ++ drop (at + taken) (held self.old) }
    {
        self.slide(at + taken, at);
        self.len -= taken;
    }

    // Puts `new` in before `at`.
    fn put_in(&mut self, at: usize, new: &[Step])
        requires { (at ≤ self.old.len) × (self.old.len + length new.now ≤ 256) }
        ensures { held self.new ≡ take at (held self.old) ++ (new.now ++ drop at (held self.old)) }
    {
        self.slide(at, at + new.len());
        self.steps[at..at + new.len()].copy_from_slice(new);
        self.len += new.len();
    }

    // Copies the steps from `from` on to `to`. Many go as one block, by way of a copy of the table: `copy_within` goes step by step,
    // which is quicker for few.
    fn slide(&mut self, from: usize, to: usize)
        requires { (from ≤ self.old.len) × (to + (self.old.len - from) ≤ 256) }
        ensures len { self.new.len ≡ self.old.len }
        ensures slid { self.new.steps ≡ copy_within self.old.steps from self.old.len to }
    {
        if self.len - from < FEW {
            self.steps.copy_within(from..self.len, to);
        } else {
            let old = self.steps;
            let rest = &old[from..self.len];
            self.steps[to..to + rest.len()].copy_from_slice(rest);
        }
    }
}

fn rename_step(step: &mut Step, e: Edge, f: Edge)
    ensures { step.new ≡ renamed_named e f step.old }
{
    match step {
        Step::Flip(flip) => flip.edge = exchanged(e, f, flip.edge),
        Step::Label(label) => rename_label(label, e, f),
    }
}

fn rename_label(label: &mut Label, e: Edge, f: Edge)
    ensures { label.new ≡ renamed_label e f label.old }
{
    match label {
        Label::Turn(k) => *k = exchanged(e, f, *k),
        Label::Swap(k, l) => {
            let a = exchanged(e, f, *k);
            let b = exchanged(e, f, *l);
            *k = a.min(b);
            *l = a.max(b);
        }
    }
}
