ghost use Rattle.std.specs.Prelude.{◌≤◌, length};
ghost use Rattle.walks.specs.Walks.{held};

use rewriting_records::fault::RewritingFault;
use triangulations::board::Board;
use triangulations::step::Step;
use walks::walk::Walk;

/// A place that a walk reaches, and the triangulation there.
#[derive(Drop)]
pub struct Site<'a> {
    pub walk: &'a mut Walk,
    pub there: &'a mut Board,
    pub place: usize,
    ghost reached: { place ≤ length (held walk.now) },
}

impl Site<'_> {
    ghost use Rattle.std.specs.Prelude.{◌≡◌, ◌+◌};
    ghost use Rattle.std.specs.Option.{ok_or};
    ghost use Rattle.rewriting_records.specs.declared.fault.RewritingFault.TheVariants.{NoForm, NoCondition};
    ghost use Rattle.rewriting.specs.Sites.{step_at};

    // The first and the second step have a function each, as they have a definition each.
    /// The first step there.
    pub fn first(&self) -> Result<Step, RewritingFault>
        ensures { result ≡ ok_or (step_at self.now self.now.place) (NoForm self.now.place) }
    {
        self.walk.get(self.place).ok_or(self.no_form())
    }

    /// The second step there.
    pub fn second(&self) -> Result<Step, RewritingFault>
        ensures { result ≡ ok_or (step_at self.now (self.now.place + 1)) (NoForm self.now.place) }
    {
        self.walk.get(self.place + 1).ok_or(self.no_form())
    }

    /// The steps there lack the form of the rule.
    pub fn no_form(&self) -> RewritingFault
        ensures { result ≡ NoForm self.now.place }
    {
        RewritingFault::NoForm { place: self.place }
    }

    /// The rule's condition on edges fails there.
    pub fn no_condition(&self) -> RewritingFault
        ensures { result ≡ NoCondition self.now.place }
    {
        RewritingFault::NoCondition { place: self.place }
    }
}
