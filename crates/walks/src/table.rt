ghost use Rattle.std.specs.Prelude.{◌≡◌, ◌↔◌, [], ◌∷◌, ◌++◌, length, take, drop, if◌then◌else◌, is_ok, IsTrue, MatchOption, nat_lt};
ghost use Rattle.std.specs.List.{slice_get};
ghost use Rattle.walks.specs.declared.fault.EditFault.TheVariants.{NoRoom};
ghost use Rattle.walks.specs.Walks.{held};

use crate::fault::EditFault;
use crate::walk::Walk;
pub use triangulations::step::MOST_STEPS;
use triangulations::step::{Label, Step};

impl Walk {
    /// The walk with no step.
    pub fn new() -> Walk
        ensures { held result ≡ [] }
    {
        Walk {
            steps: [Step::Label(Label::Turn(0)); 256],
            len: 0,
        }
    }

    /// How many steps it holds.
    pub fn len(&self) -> usize
        ensures { result ≡ length (held self.now) }
    {
        self.steps().len()
    }

    /// The step at a place, or `None` past the last.
    pub fn get(&self, at: usize) -> Option<Step>
        ensures { result ≡ slice_get (held self.now) at }
    {
        self.steps().get(at).copied()
    }

    /// The steps that it holds.
    pub fn steps(&self) -> &[Step]
        ensures { result.now ≡ held self.now }
    {
        &self.steps[..self.len]
    }

    /// Puts a step at the end; a walk of 256 steps has no room for it, and stays as it was.
    pub fn push(&mut self, step: Step) -> Result<(), EditFault>
        ensures granted { result ≡ (if nat_lt (length (held self.old)) 256 then Ok tt else Err NoRoom) }
        ensures pushed { held self.new ≡ (if is_ok result then held self.old ++ step ∷ [] else held self.old) }
    {
        if self.len == MOST_STEPS {
            return Err(EditFault::NoRoom);
        }
        // By index: a proof knows nothing of what is written through a slice's `get_mut`.
        self.steps[self.len] = step;
        self.len += 1;
        Ok(())
    }

    /// Takes the last step off, where there is one.
    pub fn pop(&mut self) -> Option<Step>
        ensures { MatchOption result ((held self.old ≡ []) × (held self.new ≡ [])) (λ s. held self.old ≡ held self.new ++ s ∷ []) }
    {
        self.len = self.len.checked_sub(1)?;
        Some(self.steps[self.len])
    }

    /// Whether the steps from `at` on begin with `old`.
    pub fn begins(&self, at: usize, old: &[Step]) -> bool
        ensures { IsTrue result ↔ (take (length old.now) (drop at (held self.now)) ≡ old.now) }
    {
        self.steps().get(at..).unwrap_or(&[]).starts_with(old)
    }
}
