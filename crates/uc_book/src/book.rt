//! The book.

ghost use Rattle.std.specs.Prelude.{◌≡◌, ℕ, ◌+◌, ◌-◌, ◌^◌, ◌<◌, ◌≤◌, ◌++◌, ◌∷◌, [], length, min, Some, map, slice_get, IfOk, IfErr, OnOk, OnErr, IsTrue, ◌↔◌, option_copied};
ghost use Rattle.uc_shelf.specs.Fronts.{IsOf};
ghost use Rattle.uc_machine.specs.Lists.{map_option};
ghost use Rattle.uc_fact.specs.Chains.{end_of};
ghost use Rattle.uc_machine.specs.State.{Target};
ghost use Rattle.uc_machine.specs.Effects.{recalls};
ghost use Rattle.uc_machine.specs.Draws.{Draws};
ghost use Rattle.uc_machine.specs.Finals.{IsFinal};
ghost use Rattle.uc_machine.specs.Runs.{Starts, Audits, Closes, IsDrained, MayAudit, Run};
ghost use Rattle.uc_book.specs.Openings.{opening_of, HasNot};
ghost use Rattle.uc_book.specs.Answers.{IsSameBook, reply_of, IfTask, IsTaskOf, IsRight, IsCommitted, IsRefused, IsReclaimed, IsNotOutTo, audit_reply_of, IsAnEnd, verdict_by};

use crate::answer::{Audited, CommitFault, Drawn, Receipt};
use crate::opened::Opened;
use crate::parts::Parts;
use crate::token::{Done, Pass};
use std::alloc::{AllocError, Global};
use std::marker::Model;
use std::sync::Wait;
use uc_fact::{Chain, Equation};
use uc_machine::{Event, Missing, Outcome, Stage, Verdict};
use uc_order::Order;
use uc_problem::Encoded;
use uc_rows::WORKERS;
use uc_shelf::{Front, Shelf};
use uc_term::Term;

/// The greatest budget of counted units.
pub const MAX_BUDGET: u32 = 10_000_000;

/// The greatest limit on pairs that wait.
pub const MAX_LIMIT: u32 = 8_000_000;

/// The book of one search: which facts were kept and which of them are dead, which pairs wait and in which state each is, how
/// far each goal is, and which tasks are out. It is a pure machine: each call makes its events, and there is always a run of
/// the machine that leads to its state.
#[derive(Drop)]
pub struct Book<'a, O: Order> {
    problem: &'a Encoded,
    order: &'a O,
    shelf: &'a Shelf,
    budget: u32,
    limit: u32,
    parts: Parts,
    workers: Vec<u32>,
}

impl<'a, O: Order> Model for Book<'a, O> {
    ghost use Rattle.std.specs.Coded.{codes};
    ghost use Rattle.uc_term.specs.Code.{tree_code};
    ghost use Rattle.boxcar.specs.Table.{shelves_coded};
    ghost use Rattle.uc_book.specs.Openings.{BookView};

    ghost Value = { BookView O };

    ghost coded = { Prim.hlevel (codes, tree_code, shelves_coded, O.code) };

    ghost use Rattle.uc_book.specs.Parts.{state_of, IsBook};

    ghost view = { λ b. record { opening = record { problem = b.problem.now; shelf = b.shelf.now; budget = b.budget; limit = b.limit }; order = b.order.now; state = state_of b.parts; front = b.parts.facts.front; enrolled = b.workers.items } };

    ghost invariant = { λ b. IsBook (O.meaning b.order.now) (record { problem = b.problem.now; shelf = b.shelf.now; budget = b.budget; limit = b.limit }) b.parts };
}

impl<'a, O: Order> Book<'a, O> {
    /// A book in which each axiom is a pair that waits and each goal is to be normalised. Where there are more axioms than the
    /// limit on pairs, it is closed at once. Axioms and goals have numbers below 2^31; a problem with more of either is refused
    /// as one for which there is no memory.
    pub fn start(
        alloc: Global,
        problem: &'a Encoded,
        order: &'a O,
        shelf: &'a Shelf,
        budget: u32,
        pairs: u32,
    ) -> Result<Book<'a, O>, AllocError>
        requires budget { budget ≤ MAX_BUDGET }
        requires pairs { pairs ≤ MAX_LIMIT }
        ensures opening { IfOk result (λ b. b.opening ≡ record { problem = problem.entry.now; shelf = shelf.entry.now; budget = budget; limit = pairs }) }
        ensures order { IfOk result (λ b. b.order ≡ order.entry.now) }
        ensures starts { IfOk result (λ b. Starts (opening_of b.opening) b.state) }
        ensures enrolled { IfOk result (λ b. b.enrolled ≡ []) }
    {
        let parts = Parts::start(alloc, problem, pairs)?;
        Ok(Book {
            problem,
            order,
            shelf,
            budget,
            limit: pairs,
            parts,
            workers: Vec::new(alloc),
        })
    }

    /// The token of a worker. The book keeps the numbers of each worker from 0 to 64, whether it is enrolled or not.
    pub fn enroll(&mut self, _alloc: Global, worker: u32) -> Result<Pass, AllocError>
        requires few { worker < WORKERS }
        requires first { HasNot worker self.old.enrolled }
        ensures worker { IfOk result (λ pass. pass.worker ≡ worker) }
        ensures commits { IfOk result (λ pass. pass.commits ≡ 0) }
        ensures opening { IfOk result (λ pass. pass.opening ≡ self.old.opening) }
        ensures book { OnOk result (self.new ≡ record self.old { enrolled = self.old.enrolled ++ worker ∷ [] }) }
        ensures err { OnErr result (self.new ≡ self.old) }
    {
        let opening = self.opening();
        self.workers.push(worker)?;
        Ok(Pass::new(worker, opening))
    }

    /// What comes next for a worker: a task, or why there is none. It takes its memory first, with room for the event that
    /// ends the task; refused, it changes nothing.
    pub fn draw(&mut self, alloc: Global, pass: &mut Pass) -> Result<Drawn, AllocError>
        requires opening { pass.old.opening ≡ self.old.opening }
        ensures drawn { IfOk result (λ d. Draws (opening_of self.old.opening) pass.old.worker self.old.state (reply_of pass.old.worker d) self.new.state) }
        ensures task { IfOk result (λ d. IfTask d (IsTaskOf (O.meaning self.old.order) self.old)) }
        ensures book { IsSameBook self.old self.new }
        ensures front { self.new.front ≡ self.old.front }
        ensures pass { pass.new ≡ pass.old }
        ensures err { OnErr result (self.new ≡ self.old) }
    {
        let opening = self.opening();
        self.parts.draw(alloc, opening, pass.worker())
    }

    /// Takes the result of a task in. `NotOut` comes exactly where no task with this ticket, this job and this front's list of
    /// entries is out to this worker. A refusal changes nothing and hands the result back.
    pub fn commit<R: Wait>(
        &mut self,
        rt: &R,
        alloc: Global,
        pass: &mut Pass,
        done: Done,
    ) -> Result<Receipt, (Done, CommitFault)>
        requires pass { pass.old.opening ≡ self.old.opening }
        requires opening { done.opening ≡ self.old.opening }
        requires of { IsOf self.old.opening.shelf done.front }
        requires right { IsRight (O.meaning self.old.order) done }
        ensures committed { IfOk result (λ receipt. IsCommitted (opening_of self.old.opening) self.old.state pass.old.worker done receipt self.new.state) }
        ensures pass { OnOk result (pass.new ≡ record pass.old { commits = min (pass.old.commits + 1) (2 ^ 64 - 1) }) }
        ensures book { IsSameBook self.old self.new }
        ensures refused { IfErr result (λ e. (e.0 ≡ done) × IsRefused self.old.state pass.old.worker done e.1) }
        ensures err { OnErr result ((self.new ≡ self.old) × (pass.new ≡ pass.old)) }
    {
        let opening = self.opening();
        match self
            .parts
            .commit(rt, alloc, self.shelf, &opening, pass.worker(), done)
        {
            Ok(receipt) => {
                pass.count();
                Ok(receipt)
            }
            Err(refused) => Err(refused),
        }
    }

    /// Lets a task wait again. `NotOut` comes exactly where the ticket isn't out to this worker. It takes no memory.
    pub fn reclaim(&mut self, pass: &mut Pass, ticket: u64) -> Result<(), CommitFault>
        requires opening { pass.old.opening ≡ self.old.opening }
        ensures reclaimed { IfOk result (λ _. IsReclaimed self.old.state pass.old.worker ticket self.new.state) }
        ensures book { IsSameBook self.old self.new }
        ensures front { self.new.front ≡ self.old.front }
        ensures pass { pass.new ≡ pass.old }
        ensures refused { IfErr result (IsNotOutTo self.old.state pass.old.worker ticket) }
        ensures err { OnErr result (self.new ≡ self.old) }
    {
        let opening = self.opening();
        self.parts.reclaim(&opening, pass.worker(), ticket)
    }

    /// Lets each task that is out wait again; then none is out. It takes no memory.
    pub fn recall(&mut self)
        ensures state { self.new.state ≡ recalls self.old.state }
        ensures none { self.new.state.out ≡ [] }
        ensures book { IsSameBook self.old self.new }
        ensures front { self.new.front ≡ self.old.front }
    {
        'tasks: while self.has_task_out() {
            self.put_first_back();
        }
    }

    /// Keeps an equation that the final pass over the drained book found missing, as the commit of a pair would, or closes the
    /// book where its budget is spent. Where it has a verdict, that is the answer.
    pub fn audit<R: Wait>(
        &mut self,
        rt: &R,
        alloc: Global,
        missing: Missing,
    ) -> Result<Audited, AllocError>
        requires { MayAudit (O.meaning self.old.order) (opening_of self.old.opening) self.old.state missing }
        ensures audited { IfOk result (λ a. Audits (opening_of self.old.opening) missing.fact self.old.state (audit_reply_of a) self.new.state) }
        ensures book { IsSameBook self.old self.new }
        ensures err { OnErr result (self.new ≡ self.old) }
    {
        let opening = self.opening();
        self.parts
            .audit(rt, alloc, self.shelf, &opening, missing.fact)
    }

    /// Closes a drained book by what its final pass answers. It takes no memory.
    pub fn close(&mut self, outcome: &Outcome) -> Verdict
        requires drained { IsDrained self.old.state }
        requires final_pass { IsFinal (O.meaning self.old.order) self.old.opening.problem.axioms self.old.state outcome.now }
        requires end { IsAnEnd outcome.now }
        ensures closed { Closes self.old.state outcome.now result self.new.state }
        ensures book { IsSameBook self.old self.new }
        ensures front { self.new.front ≡ self.old.front }
    {
        let verdict = verdict_of(outcome);
        self.parts.close(0, verdict);
        verdict
    }

    /// The verdict, if one stands.
    pub fn verdict(&self) -> Option<&Verdict>
        ensures { option_copied result ≡ self.now.state.verdict }
    {
        self.parts.verdict.as_ref()
    }

    /// What happened, in order. A run of the machine with this history leads to the book's state.
    pub fn history(&self) -> &[Event]
        ensures events { result.now ≡ self.now.state.history }
        ensures run { Run (O.meaning self.now.order) (opening_of self.now.opening) result.now self.now.state }
    {
        self.parts.history.as_slice()
    }

    /// How many units were counted.
    pub fn counted(&self) -> u32
        ensures { result ≡ self.now.state.counted }
    {
        self.parts.counted
    }

    /// The front of the entries.
    pub fn front(&self) -> &Front
        ensures front { result.now ≡ self.now.front }
        ensures entries { result.now.entries ≡ self.now.state.entries }
        ensures of { IsOf self.now.opening.shelf result.now }
    {
        self.parts.facts.front()
    }

    /// The axioms of the problem.
    pub fn axioms(&self) -> &[Equation]
        ensures axioms { result.now ≡ self.now.opening.problem.axioms }
        ensures few { length result.now < 2 ^ 31 }
    {
        self.problem.axioms.as_slice()
    }

    /// What is to be done for each goal, by number.
    pub fn stages(&self, alloc: Global) -> Result<Vec<Stage>, AllocError>
        ensures stages { IfOk result (λ v. v.items ≡ map (λ (g : Target). g.stage) self.now.state.goals) }
        ensures few { IfOk result (λ v. length v.items < 2 ^ 31) }
    {
        self.parts.goals.stages(alloc)
    }

    /// The two present ends of a goal.
    pub fn ends(&self, goal: u32) -> (&Term, &Term)
        requires { goal < length self.now.opening.problem.goals }
        ensures left { map_option (λ (g : Target). end_of g.left) (slice_get self.now.state.goals goal) ≡ Some result.0.now }
        ensures right { map_option (λ (g : Target). end_of g.right) (slice_get self.now.state.goals goal) ≡ Some result.1.now }
    {
        self.parts.goals.ends(goal)
    }

    /// The chains from the two sides of a goal to its present ends.
    pub fn chain(&self, goal: u32) -> (&Chain, &Chain)
        requires { goal < length self.now.opening.problem.goals }
        ensures left { map_option (λ (g : Target). g.left) (slice_get self.now.state.goals goal) ≡ Some result.0.now }
        ensures right { map_option (λ (g : Target). g.right) (slice_get self.now.state.goals goal) ≡ Some result.1.now }
    {
        self.parts.goals.chain(goal)
    }

    /// What the book was opened with.
    fn opening(&self) -> Opened
        ensures { result ≡ self.now.opening }
    {
        Opened::new(self.problem, self.shelf, self.budget, self.limit)
    }

    /// Whether a task is out.
    fn has_task_out(&self) -> bool
        ensures { IsTrue result ↔ (0 < length self.now.state.out) }
    {
        !self.parts.tasks.is_empty()
    }

    /// Lets the task out of the least ticket wait again.
    fn put_first_back(&mut self)
        requires { 0 < length self.old.state.out }
        ensures state { recalls self.new.state ≡ recalls self.old.state }
        ensures fewer { length self.new.state.out + 1 ≡ length self.old.state.out }
        ensures book { IsSameBook self.old self.new }
        ensures front { self.new.front ≡ self.old.front }
    {
        self.parts.put_back(0);
    }
}

/// The verdict on a drained book by what its final pass answers.
fn verdict_of(outcome: &Outcome) -> Verdict
    requires { IsAnEnd outcome.now }
    ensures { verdict_by outcome.now ≡ Some result }
{
    match outcome {
        Outcome::Convergent(_) => Verdict::Saturated,
        Outcome::Large(overlap) => Verdict::LargeOverlap(*overlap),
        Outcome::GoalUnsettled(goal) => Verdict::LargeGoal(*goal),
        Outcome::Missing(_) => unreachable!(),
    }
}
