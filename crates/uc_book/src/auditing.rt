//! Audits.

ghost use Rattle.std.specs.Prelude.{◌≡◌, ◌+◌, ◌<◌, None, IfOk, OnErr, vec_len, vec_capacity};
ghost use Rattle.uc_machine.specs.declared.event.Verdict.TheVariants.{BudgetOut};
ghost use Rattle.uc_machine.specs.Effects.{closes};
ghost use Rattle.uc_book.specs.Openings.{opening_of};
ghost use Rattle.uc_book.specs.Answers.{audit_reply_of};
ghost use Rattle.uc_machine.specs.Runs.{Audits};
ghost use Rattle.uc_book.specs.Parts.{state_of, Fit, HasRoom, SameSubjects};
ghost use Rattle.uc_book.specs.Ending.{CanEnd};

use crate::answer::Audited;
use crate::opened::Opened;
use crate::parts::Parts;
use std::alloc::{AllocError, Global};
use std::sync::Wait;
use uc_fact::Fact;
use uc_machine::{Event, Happening, Verdict};
use uc_shelf::Shelf;

impl Parts {
    /// Keeps a fact that was found missing, where no verdict stands and a unit is left. It grows first and changes last.
    pub(crate) fn audit<R: Wait>(
        &mut self,
        rt: &R,
        alloc: Global,
        shelf: &Shelf,
        opening: &Opened,
        fact: Fact,
    ) -> Result<Audited, AllocError>
        requires shelf { shelf.now ≡ opening.now.shelf }
        requires can { CanEnd opening.now.shelf (opening_of opening.now) self.old }
        ensures audited { IfOk result (λ a. Audits (opening_of opening.now) fact (state_of self.old) (audit_reply_of a) (state_of self.new)) }
        ensures err { OnErr result ((state_of self.new ≡ state_of self.old) × (self.new.facts.front ≡ self.old.facts.front)) }
        ensures fit { Fit opening.now.shelf self.new }
        ensures room { HasRoom self.new }
    {
        match self.verdict {
            Some(verdict) => Ok(Audited::Closed(verdict)),
            None => self.audit_open(rt, alloc, shelf, opening, fact),
        }
    }

    /// Keeps a fact that was found missing, where a unit is left.
    fn audit_open<R: Wait>(
        &mut self,
        rt: &R,
        alloc: Global,
        shelf: &Shelf,
        opening: &Opened,
        fact: Fact,
    ) -> Result<Audited, AllocError>
        requires open { self.old.verdict ≡ None }
        requires shelf { shelf.now ≡ opening.now.shelf }
        requires can { CanEnd opening.now.shelf (opening_of opening.now) self.old }
        ensures audited { IfOk result (λ a. Audits (opening_of opening.now) fact (state_of self.old) (audit_reply_of a) (state_of self.new)) }
        ensures err { OnErr result ((state_of self.new ≡ state_of self.old) × (self.new.facts.front ≡ self.old.facts.front)) }
        ensures fit { Fit opening.now.shelf self.new }
        ensures room { HasRoom self.new }
    {
        if self.counted == opening.budget() {
            return Ok(Audited::Closed(self.spend()));
        }
        let events = self.tasks.len() + 2;
        self.history.reserve(events)?;
        let weight = fact.left.nodes() + fact.right.nodes();
        let front = self.with_birth(rt, alloc, shelf, fact)?;
        let number = self.facts.count() as u32;
        self.publish(front, weight);
        self.counted += 1;
        self.history.push_reserved(Event {
            worker: 0,
            what: Happening::AuditKept { fact: number },
        });
        Ok(Audited::Kept(number))
    }

    /// The budget is spent, by the count alone.
    fn spend(&mut self) -> Verdict
        requires { vec_len self.old.history < vec_capacity self.old.history }
        ensures verdict { result ≡ BudgetOut self.old.counted }
        ensures state { state_of self.new ≡ closes 0 (BudgetOut self.old.counted) (state_of self.old) }
        ensures subjects { SameSubjects self.old self.new }
        ensures tasks { (self.new.tasks ≡ self.old.tasks) × (self.new.next ≡ self.old.next) }
        ensures history { vec_len self.new.history ≡ vec_len self.old.history + 1 }
        ensures capacity { vec_capacity self.new.history ≡ vec_capacity self.old.history }
    {
        let verdict = Verdict::BudgetOut {
            counted: self.counted,
        };
        self.close(0, verdict);
        verdict
    }
}
