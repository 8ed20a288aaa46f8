//! The goals: the chains that lead to their present ends, and what is to be done for each.

ghost use Rattle.std.specs.Prelude.{◌≡◌, ℕ, ◌<◌, ◌≤◌, ◌^◌, length, map, min, cond, true, false, Some, [], slice_get, slice_index_or, IfOk, IfErr, OnOk, OnErr, MatchOption, None};
ghost use Rattle.uc_rows.specs.declared.goals.GoalRow.{GoalRow as AnyRow};
ghost use Rattle.uc_machine.specs.Lists.{At, first, change, map_option};
ghost use Rattle.uc_fact.specs.Chains.{end_of};
ghost use Rattle.uc_machine.specs.State.{Target, is_due, is_continued};
ghost use Rattle.uc_machine.specs.Effects.{wakes, wakes_stage, goes_on};
ghost use Rattle.uc_machine.specs.Runs.{goal_of};
ghost use Rattle.uc_machine.specs.declared.task.Job.TheVariants.{Goal, More};
ghost use Rattle.uc_rows.specs.GoalRows.{target_of};
ghost use Rattle.uc_rows.specs.Jobs.{AreJobs};

use crate::chains::{end_of, go_on};
use crate::tasks::copy_job;
use std::alloc::{AllocError, Global};
use std::marker::Model;
use uc_fact::{Chain, Equation};
use uc_machine::{Job, Stage};
use uc_term::{Seq, Term};

/// A goal: the chains that lead from its two sides to its present ends, and its state.
#[derive(Drop)]
pub struct GoalRow {
    pub left: Chain,
    pub right: Chain,
    pub stage: Stage,
}

/// All goals, by number. No goal before `due_from` is Due, and none before `continued_from` is Continued, so the search for
/// the least one goes on there.
#[derive(Drop)]
pub struct Goals {
    rows: Vec<GoalRow>,
    due_from: usize,
    continued_from: usize,
}

impl Model for Goals {
    ghost use Rattle.std.specs.Prelude.{List};
    ghost use Rattle.std.specs.Coded.{codes};
    ghost use Rattle.uc_term.specs.Code.{tree_code};
    ghost use Rattle.uc_machine.specs.State.{Target};

    ghost Value = { List Target };

    ghost coded = { Prim.hlevel (codes, tree_code) };

    ghost use Rattle.uc_rows.specs.GoalRows.{targets_of, AreGoals};

    ghost view = { λ g. targets_of g.rows.items };

    ghost invariant = { AreGoals };
}

/// A chain without a step.
fn chain_at(alloc: Global, start: &Term) -> Result<Chain, AllocError>
    ensures { IfOk result (λ chain. chain ≡ record { start = start.now; steps = [] }) }
{
    Ok(Chain {
        start: start.copy(alloc)?,
        steps: Seq::new(alloc),
    })
}

/// A goal at its start.
fn row_of(alloc: Global, goal: &Equation) -> Result<GoalRow, AllocError>
    ensures { IfOk result (λ row. target_of row ≡ goal_of goal.now) }
{
    Ok(GoalRow {
        left: chain_at(alloc, &goal.left)?,
        right: chain_at(alloc, &goal.right)?,
        stage: Stage::Due,
    })
}

#[inline]
fn is_due(stage: Stage) -> bool
    ensures { result ≡ is_due stage }
{
    matches!(stage, Stage::Due)
}

#[inline]
fn is_continued(stage: Stage) -> bool
    ensures { result ≡ is_continued stage }
{
    matches!(stage, Stage::Continued)
}

/// What a goal that rests is to become when there is a new entry.
#[inline]
fn woken(stage: Stage) -> Stage
    ensures { result ≡ wakes_stage stage }
{
    match stage {
        Stage::Settled | Stage::Stuck => Stage::Due,
        Stage::Due | Stage::Busy | Stage::Continued => stage,
    }
}

/// Where a search goes on that found nothing before `from`, where it is to find this number or not.
#[inline]
pub fn back_to(from: usize, number: usize, is_wanted: bool) -> usize
    ensures { result ≡ cond is_wanted (min from number) from }
{
    if is_wanted { from.min(number) } else { from }
}

/// The least number, from one on, of a goal that is Due; how many goals there are, where there is none.
fn due_from(rows: &[GoalRow], from: usize) -> usize
    ensures none { (k : ℕ) (d : AnyRow) → from ≤ k → k < result → k < length rows.now → is_due (slice_index_or rows.now k d).stage ≡ false }
    ensures some { (d : AnyRow) → result < length rows.now → is_due (slice_index_or rows.now result d).stage ≡ true }
{
    for k in from..rows.len() {
        if is_due(rows[k].stage) {
            return k;
        }
    }
    rows.len()
}

/// The least number, from one on, of a goal that is Continued; how many goals there are, where there is none.
fn continued_from(rows: &[GoalRow], from: usize) -> usize
    ensures none { (k : ℕ) (d : AnyRow) → from ≤ k → k < result → k < length rows.now → is_continued (slice_index_or rows.now k d).stage ≡ false }
    ensures some { (d : AnyRow) → result < length rows.now → is_continued (slice_index_or rows.now result d).stage ≡ true }
{
    for k in from..rows.len() {
        if is_continued(rows[k].stage) {
            return k;
        }
    }
    rows.len()
}

impl Goals {
    /// The goals of a problem, each of which is Due.
    pub fn new(alloc: Global, goals: &[Equation]) -> Result<Goals, AllocError>
        requires { length goals.now < 2 ^ 31 }
        ensures { IfOk result (λ g. g ≡ map goal_of goals.now) }
    {
        let mut rows = Vec::new(alloc);
        for goal in goals {
            rows.push(row_of(alloc, goal)?)?;
        }
        Ok(Goals {
            rows,
            due_from: 0,
            continued_from: 0,
        })
    }

    /// What is to be done for each goal, by number.
    pub fn stages(&self, alloc: Global) -> Result<Vec<Stage>, AllocError>
        ensures { IfOk result (λ v. v.items ≡ map (λ (g : Target). g.stage) self.now) }
    {
        let mut stages = Vec::new(alloc);
        for row in &self.rows {
            stages.push(row.stage)?;
        }
        Ok(stages)
    }

    /// The least goal that is Due.
    pub fn first_due(&mut self) -> Option<u32>
        ensures found { result ≡ map_option (λ (f : At Target). f.number) (first (λ (g : Target). is_due g.stage) self.old) }
        ensures same { self.new ≡ self.old }
    {
        let number = due_from(self.rows.as_slice(), self.due_from);
        self.due_from = number;
        if number >= self.rows.len() {
            return None;
        }
        Some(number as u32)
    }

    /// The least goal that is Continued.
    pub fn first_continued(&mut self) -> Option<u32>
        ensures found { result ≡ map_option (λ (f : At Target). f.number) (first (λ (g : Target). is_continued g.stage) self.old) }
        ensures same { self.new ≡ self.old }
    {
        let number = continued_from(self.rows.as_slice(), self.continued_from);
        self.continued_from = number;
        if number >= self.rows.len() {
            return None;
        }
        Some(number as u32)
    }

    /// The job to normalise the least goal that is Due, twice.
    pub fn due_jobs(&mut self, alloc: Global) -> Result<Option<(Job, Job)>, AllocError>
        ensures jobs { IfOk result (λ o. MatchOption o (first (λ (g : Target). is_due g.stage) self.old ≡ None) (AreJobs Goal (first (λ (g : Target). is_due g.stage) self.old))) }
        ensures same { self.new ≡ self.old }
    {
        let Some(goal) = self.first_due() else {
            return Ok(None);
        };
        let (left, right) = self.ends(goal);
        let job = Job::Goal {
            goal,
            left: left.copy(alloc)?,
            right: right.copy(alloc)?,
        };
        let other = copy_job(alloc, &job)?;
        Ok(Some((job, other)))
    }

    /// The job to go on with the least goal that is Continued, twice.
    pub fn continued_jobs(&mut self, alloc: Global) -> Result<Option<(Job, Job)>, AllocError>
        ensures jobs { IfOk result (λ o. MatchOption o (first (λ (g : Target). is_continued g.stage) self.old ≡ None) (AreJobs More (first (λ (g : Target). is_continued g.stage) self.old))) }
        ensures same { self.new ≡ self.old }
    {
        let Some(goal) = self.first_continued() else {
            return Ok(None);
        };
        let (left, right) = self.ends(goal);
        let job = Job::More {
            goal,
            left: left.copy(alloc)?,
            right: right.copy(alloc)?,
        };
        let other = copy_job(alloc, &job)?;
        Ok(Some((job, other)))
    }

    /// Gives a goal this state.
    pub fn turn(&mut self, goal: u32, stage: Stage)
        ensures { self.new ≡ change (λ (x : Target). record x { stage = stage }) self.old goal }
    {
        let number = goal as usize;
        if number >= self.rows.len() {
            return;
        }
        self.rows[number].stage = stage;
        self.due_from = back_to(self.due_from, number, is_due(stage));
        self.continued_from = back_to(self.continued_from, number, is_continued(stage));
    }

    /// There is a new entry: each goal that rests becomes Due.
    pub fn wake(&mut self)
        ensures { self.new ≡ map wakes self.old }
    {
        for k in 0..self.rows.len() {
            self.rows[k].stage = woken(self.rows[k].stage);
        }
        self.due_from = 0;
    }

    /// The present ends of a goal.
    pub fn ends(&self, goal: u32) -> (&Term, &Term)
        requires { goal < length self.now }
        ensures left { map_option (λ (g : Target). end_of g.left) (slice_get self.now goal) ≡ Some result.0.now }
        ensures right { map_option (λ (g : Target). end_of g.right) (slice_get self.now goal) ≡ Some result.1.now }
    {
        let row = &self.rows[goal as usize];
        (end_of(&row.left), end_of(&row.right))
    }

    /// The chains from the sides of a goal to its present ends.
    pub fn chain(&self, goal: u32) -> (&Chain, &Chain)
        requires { goal < length self.now }
        ensures left { map_option (λ (g : Target). g.left) (slice_get self.now goal) ≡ Some result.0.now }
        ensures right { map_option (λ (g : Target). g.right) (slice_get self.now goal) ≡ Some result.1.now }
    {
        let row = &self.rows[goal as usize];
        (&row.left, &row.right)
    }

    /// Lets the two chains of a goal go on by these. For want of memory nothing changes, and they are handed back.
    pub fn go_on(
        &mut self,
        alloc: Global,
        goal: u32,
        left: Chain,
        right: Chain,
    ) -> Result<(), (Chain, Chain)>
        requires { goal < length self.old }
        ensures ok { OnOk result (self.new ≡ change (goes_on left right) self.old goal) }
        ensures err { OnErr result (self.new ≡ self.old) }
        ensures back { IfErr result (λ e. (e.0 ≡ left) × (e.1 ≡ right)) }
    {
        let row = &mut self.rows[goal as usize];
        go_on(alloc, row, left, right)
    }

    /// How many goals there are.
    pub fn count(&self) -> usize
        ensures { result ≡ length self.now }
    {
        self.rows.len()
    }

    /// What is to be done for a goal; none, where there is no such goal.
    pub fn stage(&self, goal: u32) -> Option<Stage>
        ensures { result ≡ map_option (λ (g : Target). g.stage) (slice_get self.now goal) }
    {
        let number = goal as usize;
        if number < self.rows.len() {
            Some(self.rows[number].stage)
        } else {
            None
        }
    }
}
