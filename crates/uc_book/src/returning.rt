//! Tasks that are put back.

ghost use Rattle.std.specs.Prelude.{◌≡◌, IfOk, IfErr, OnErr};
ghost use Rattle.uc_machine.specs.State.{Opening};
ghost use Rattle.uc_book.specs.Answers.{IsReclaimed, IsNotOutTo};
ghost use Rattle.uc_book.specs.Openings.{opening_of};
ghost use Rattle.uc_book.specs.Parts.{state_of, Fit, HasRoom};
ghost use Rattle.uc_book.specs.Ending.{CanEnd};

use crate::answer::CommitFault;
use crate::opened::Opened;
use crate::parts::Parts;
use uc_rows::place_of;

impl Parts {
    /// Puts the task of a ticket back, where it is out to the worker.
    pub(crate) fn reclaim(
        &mut self,
        opening: &Opened,
        worker: u32,
        ticket: u64,
    ) -> Result<(), CommitFault>
        requires { CanEnd opening.now.shelf (opening_of opening.now) self.old }
        ensures reclaimed { IfOk result (λ _. IsReclaimed (state_of self.old) worker ticket (state_of self.new)) }
        ensures refused { IfErr result (IsNotOutTo (state_of self.old) worker ticket) }
        ensures err { OnErr result (self.new ≡ self.old) }
        ensures front { self.new.facts.front ≡ self.old.facts.front }
        ensures fit { Fit opening.now.shelf self.new }
        ensures room { HasRoom self.new }
    {
        let Some(at) = place_of(&self.tasks, ticket) else {
            return Err(CommitFault::NotOut(ticket));
        };
        if self.tasks[at].worker != worker {
            return Err(CommitFault::NotOut(ticket));
        }
        self.put_back(at);
        Ok(())
    }
}
