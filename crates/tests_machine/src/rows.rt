//! What a book holds, in rows: each change and what is read after it.

ghost use Rattle.std.specs.Prelude.{◌≡◌, ◌<◌, ◌≤◌, ◌^◌, ◌++◌, ◌∷◌, [], length, IfOk};
ghost use Rattle.uc_shelf.specs.Fronts.{IsOf};
ghost use Rattle.uc_rows.specs.Bounds.{AreSmall};

use crate::alphabet::fact_of;
use std::alloc::{AllocError, Global};
use std::sync::Wait;
use std::test::Fail;
use uc_fact::{By, Chain, Equation, Fact, Origin, Step};
use uc_ledger::State;
use uc_machine::{Happening, Job, Meeting, Numbers, Stage};
use uc_rows::{
    Facts, Goals, Pairs, TaskRow, count_commit, count_draw, count_reclaim, draw_event, end_of,
    no_numbers, place_of, reclaim_event, same_job, units,
};
use uc_shelf::{Entry, Front, Shelf};
use uc_term::{Pos, Seq, Sym, Term, TermFault};

// THE PAIRS

// Three axioms of weights 5, 3 and 4, of which the first two wait.
fn three_pairs(alloc: Global) -> Result<Pairs, Fail> {
    let mut pairs = Pairs::new(alloc)?;
    pairs.reserve(alloc, 3)?;
    pairs.add(alloc, Origin::Axiom(0), 5, State::Waiting);
    pairs.add(alloc, Origin::Axiom(1), 3, State::Waiting);
    pairs.add(alloc, Origin::Axiom(2), 4, State::Done);
    Ok(pairs)
}

// The pair at the head goes to worker 7.
fn hand_out(pairs: &mut Pairs) -> Result<u64, Fail>
    ensures { IfOk result (λ _. 1 ≤ pairs.new.spare) }
{
    match pairs.head() {
        Some((number, _)) => {
            pairs.hand_out(number, 7);
            Ok(number)
        }
        None => Err(Fail::from("nothing waits")),
    }
}

// The pair at the head is dropped.
fn drop_head(pairs: &mut Pairs) -> Result<u64, Fail> {
    match pairs.head() {
        Some((number, _)) => {
            pairs.drop_head(number);
            Ok(number)
        }
        None => Err(Fail::from("nothing waits")),
    }
}

// A pair that is out waits again.
fn give_back(pairs: &mut Pairs, number: u64) -> Result<(), Fail>
    requires { 1 ≤ pairs.old.spare }
{
    match pairs.row(number) {
        Some((_, _, State::Out(worker))) => {
            pairs.give_back(number, worker);
            Ok(())
        }
        _ => Err(Fail::from("the pair isn't out")),
    }
}

// A pair that is out is Done.
fn finish(pairs: &mut Pairs, number: u64) -> Result<(), Fail> {
    match pairs.row(number) {
        Some((_, _, State::Out(worker))) => {
            pairs.finish(number, worker);
            Ok(())
        }
        _ => Err(Fail::from("the pair isn't out")),
    }
}

// Whether the pair of this axiom has this weight and state, and so many pairs wait.
fn stands(pairs: &Pairs, axiom: u32, weight: u32, state: State, waiting: usize) -> bool {
    pairs.row(u64::from(axiom)) == Some((Origin::Axiom(axiom), weight, state))
        && pairs.waiting() == waiting
}

// The lightest pair is drawn, waits again, is drawn again and is Done.
#[test]
fn pairs_are_drawn(rt: HostRuntime) -> Result<(), Fail> {
    let mut pairs = three_pairs(rt.alloc())?;
    assert!(rt; pairs.count() == 3 && stands(&pairs, 1, 3, State::Waiting, 2));
    assert!(rt; is_given_back(&mut pairs)?);
    assert!(rt; is_finished(&mut pairs)?);
    Ok(())
}

// Whether the lightest pair is drawn, and waits again.
fn is_given_back(pairs: &mut Pairs) -> Result<bool, Fail> {
    let first = hand_out(pairs)?;
    let is_drawn = stands(pairs, 1, 3, State::Out(7), 1);
    give_back(pairs, first)?;
    Ok(first == 1 && is_drawn && stands(pairs, 1, 3, State::Waiting, 2))
}

// Whether it is drawn, and is Done.
fn is_finished(pairs: &mut Pairs) -> Result<bool, Fail> {
    let again = hand_out(pairs)?;
    finish(pairs, again)?;
    Ok(stands(pairs, 1, 3, State::Done, 1))
}

// Both pairs that wait are dropped, the lighter one first.
#[test]
fn pairs_are_dropped(rt: HostRuntime) -> Result<(), Fail> {
    let mut pairs = three_pairs(rt.alloc())?;
    assert!(rt; drops(&mut pairs, 1, 3, 1)?);
    assert!(rt; drops(&mut pairs, 0, 5, 0)?);
    assert!(rt; pairs.head().is_none() && pairs.row(3).is_none());
    Ok(())
}

// Whether the pair of this axiom and weight is dropped, and so many wait then.
fn drops(pairs: &mut Pairs, axiom: u32, weight: u32, waiting: usize) -> Result<bool, Fail> {
    let dropped = drop_head(pairs)?;
    Ok(dropped == u64::from(axiom) && stands(pairs, axiom, weight, State::Orphan, waiting))
}

// THE GOALS

fn constant(alloc: Global, number: u32) -> Result<Term, TermFault> {
    Term::app(alloc, Sym(number), &[])
}

fn equation(alloc: Global, left: u32, right: u32) -> Result<Equation, TermFault> {
    Ok(Equation {
        left: constant(alloc, left)?,
        right: constant(alloc, right)?,
    })
}

// The goals a = b and c = d, the constants being numbered.
fn two_goals(alloc: Global) -> Result<Goals, Fail> {
    let list = [equation(alloc, 0, 1)?, equation(alloc, 2, 3)?];
    Ok(Goals::new(alloc, &list)?)
}

// A chain of one step from one constant to another, or of none.
fn chain(alloc: Global, from: u32, to: Option<u32>) -> Result<Chain, Fail> {
    let mut steps = Seq::new(alloc);
    if let Some(number) = to {
        steps.push(Step {
            by: By::Axiom(0),
            left_to_right: true,
            position: Pos(0),
            to: constant(alloc, number)?,
        })?;
    }
    Ok(Chain {
        start: constant(alloc, from)?,
        steps,
    })
}

// The left end of a goal goes on by one step to a constant.
fn go_on(alloc: Global, goals: &mut Goals, goal: u32, to: u32) -> Result<(), Fail> {
    if goal as usize >= goals.count() {
        return Err(Fail::from("no such goal"));
    }
    let left = chain(alloc, 0, Some(to))?;
    let right = chain(alloc, 1, None)?;
    match goals.go_on(alloc, goal, left, right) {
        Ok(()) => Ok(()),
        Err(_) => Err(Fail::from("no memory")),
    }
}

// Whether the chains of a goal lead to these ends, the left one by so many steps.
fn leads(goals: &Goals, goal: u32, left: &Term, right: &Term, steps: usize) -> bool {
    if goal as usize >= goals.count() {
        return false;
    }
    let ends = goals.ends(goal);
    let chains = goals.chain(goal);
    ends.0.same(left)
        && ends.1.same(right)
        && end_of(chains.0).same(left)
        && end_of(chains.1).same(right)
        && chains.0.steps.len() == steps
}

// A goal that is Continued is no more Due; one that is Stuck is Due where there is a new entry.
#[test]
fn goals_turn_and_wake(rt: HostRuntime) -> Result<(), Fail> {
    let mut goals = two_goals(rt.alloc())?;
    assert!(rt; goals.count() == 2 && turn(&mut goals));
    assert!(rt; wake(&mut goals));
    assert!(rt; goals.stages(rt.alloc())?.len() == 2);
    go_on(rt.alloc(), &mut goals, 0, 4)?;
    assert!(rt; leads_to(rt.alloc(), &goals, 0, (4, 1), 1)?);
    assert!(rt; leads_to(rt.alloc(), &goals, 1, (2, 3), 0)?);
    Ok(())
}

// Whether a goal that is Continued is no more Due.
fn turn(goals: &mut Goals) -> bool {
    let before = goals.first_due();
    goals.turn(0, Stage::Continued);
    before == Some(0) && goals.first_due() == Some(1) && goals.first_continued() == Some(0)
}

// Whether one that is Stuck is woken, and no other.
fn wake(goals: &mut Goals) -> bool {
    goals.turn(0, Stage::Stuck);
    goals.turn(1, Stage::Busy);
    goals.wake();
    goals.stage(0) == Some(Stage::Due)
        && goals.stage(1) == Some(Stage::Busy)
        && goals.stage(2) == None
}

// Whether the chains of a goal lead to these constants.
fn leads_to(
    alloc: Global,
    goals: &Goals,
    goal: u32,
    ends: (u32, u32),
    steps: usize,
) -> Result<bool, TermFault> {
    let ends = equation(alloc, ends.0, ends.1)?;
    Ok(leads(goals, goal, &ends.left, &ends.right, steps))
}

// The job about a goal that is Due or, where none is, about one that is Continued.
fn next_job(alloc: Global, goals: &mut Goals) -> Result<Job, Fail> {
    let jobs = match goals.due_jobs(alloc)? {
        Some(jobs) => Some(jobs),
        None => goals.continued_jobs(alloc)?,
    };
    let Some((job, other)) = jobs else {
        return Err(Fail::from("no job"));
    };
    if !same_job(&job, &other) {
        return Err(Fail::from("two jobs that differ"));
    }
    Ok(job)
}

fn row(alloc: Global, ticket: u64, job: Job) -> TaskRow {
    TaskRow {
        ticket,
        worker: 7,
        job,
        front: Front::empty(alloc),
    }
}

// Jobs about goals, their events and units, and where the task of a ticket stands.
#[test]
fn jobs_are_about_goals(rt: HostRuntime) -> Result<(), Fail> {
    let mut goals = two_goals(rt.alloc())?;
    goals.turn(0, Stage::Continued);
    let due = next_job(rt.alloc(), &mut goals)?;
    assert!(rt; is_due(&due));
    goals.turn(1, Stage::Settled);
    let more = next_job(rt.alloc(), &mut goals)?;
    assert!(rt; is_more(&more) && !same_job(&due, &more));
    assert!(rt; are_placed(rt.alloc(), due, more));
    Ok(())
}

fn is_due(job: &Job) -> bool {
    draw_event(job, 5) == Happening::DrawGoal { goal: 1, front: 5 } && units(job) == 0
}

fn is_more(job: &Job) -> bool {
    reclaim_event(job) == Happening::ReclaimMore { goal: 0 } && units(job) == 1
}

fn are_placed(alloc: Global, due: Job, more: Job) -> bool {
    let tasks = [row(alloc, 3, due), row(alloc, 5, more)];
    place_of(&tasks, 5) == Some(1) && place_of(&tasks, 4) == None
}

// THE FACTS

// A copy of a short front with an entry behind it.
fn with_entry<R: Wait>(
    rt: &R,
    alloc: Global,
    shelf: &Shelf,
    front: &Front,
    entry: Entry,
) -> Result<Front, Fail>
    requires { IsOf shelf.now front.now }
    ensures of { IfOk result (λ f. IsOf shelf.now f) }
    ensures entries { IfOk result (λ f. f.entries ≡ front.now.entries ++ entry ∷ []) }
    ensures few { IfOk result (λ f. length f.entries ≤ 2 ^ 31) }
{
    if front.len() >= 9 {
        return Err(Fail::from("too long"));
    }
    let mut longer = front.copy(alloc)?;
    shelf.publish(rt, alloc, &mut longer, entry)?;
    Ok(longer)
}

// A fact is born.
fn is_born<R: Wait>(
    rt: &R,
    alloc: Global,
    shelf: &Shelf,
    facts: &mut Facts,
    fact: Fact,
) -> Result<(), Fail>
    requires { IsOf shelf.now facts.old.front }
    ensures { IfOk result (λ _. IsOf shelf.now facts.new.front) }
{
    let weight = fact.left.nodes() + fact.right.nodes();
    let front = with_entry(rt, alloc, shelf, facts.front(), Entry::Born(fact))?;
    facts.reserve(1)?;
    facts.adopt(front, weight);
    Ok(())
}

// A fact dies, replaced by another one.
fn dies<R: Wait>(
    rt: &R,
    alloc: Global,
    shelf: &Shelf,
    facts: &mut Facts,
    fact: u32,
    killer: u32,
) -> Result<(), Fail>
    requires { IsOf shelf.now facts.old.front }
{
    if fact as usize >= facts.count() {
        return Err(Fail::from("no such fact"));
    }
    let front = with_entry(
        rt,
        alloc,
        shelf,
        facts.front(),
        Entry::Dies { fact, killer },
    )?;
    facts.bury(front, &[fact]);
    Ok(())
}

// The facts f(a) = b, of weight 3, and a = b, of weight 2.
fn two_facts<R: Wait>(rt: &R, alloc: Global, shelf: &Shelf) -> Result<Facts, Fail>
    ensures { IfOk result (λ f. IsOf shelf.now f.front) }
{
    let mut facts = Facts::new(alloc);
    is_born(rt, alloc, shelf, &mut facts, first_fact(alloc)?)?;
    is_born(rt, alloc, shelf, &mut facts, second_fact(alloc)?)?;
    Ok(facts)
}

fn first_fact(alloc: Global) -> Result<Fact, TermFault> {
    let inner = [constant(alloc, 0)?];
    let left = Term::app(alloc, Sym(2), &inner)?;
    Ok(fact_of(alloc, left, constant(alloc, 1)?)?)
}

fn second_fact(alloc: Global) -> Result<Fact, TermFault> {
    let left = constant(alloc, 0)?;
    Ok(fact_of(alloc, left, constant(alloc, 1)?)?)
}

// The least fact that is Unmet is found; a meeting that isn't held leaves a fact Unmet, or Met where the fact is dead.
#[test]
fn facts_meet_and_die(rt: HostRuntime) -> Result<(), Fail> {
    let alloc = rt.alloc();
    let shelf = Shelf::new(alloc)?;
    let mut facts = two_facts(&rt, alloc, &shelf)?;
    assert!(rt; are_two(&facts));
    assert!(rt; meet(&mut facts));
    dies(&rt, alloc, &shelf, &mut facts, 1, 0)?;
    assert!(rt; is_second_dead(&mut facts));
    Ok(())
}

fn are_two(facts: &Facts) -> bool {
    facts.count() == 2 && facts.weight(0) == 3 && facts.weight(1) == 2 && facts.meeting(2) == None
}

// Whether the first fact is Unmet first, but not while it meets, and again when that isn't held; the second one meets at last.
fn meet(facts: &mut Facts) -> bool
    ensures { facts.new.front ≡ facts.old.front }
{
    let before = facts.first_unmet();
    facts.settle(0, Meeting::Visiting);
    let meanwhile = facts.first_unmet();
    facts.restore(0);
    let after = facts.first_unmet();
    facts.settle(1, Meeting::Visiting);
    before == Some(0) && meanwhile == Some(1) && after == Some(0)
}

// Whether the second fact is dead while it meets, and Met when that isn't held.
fn is_second_dead(facts: &mut Facts) -> bool {
    let died = facts.is_dead(1) && !facts.is_dead(0) && facts.front().len() == 3;
    let meanwhile = facts.meeting(1);
    facts.restore(1);
    died && meanwhile == Some(Meeting::Visiting) && facts.meeting(1) == Some(Meeting::Met)
}

// THE WORKERS

fn numbers(alloc: Global) -> Result<Vec<Numbers>, AllocError>
    ensures { IfOk result (λ v. AreSmall v.items) }
{
    no_numbers(alloc)
}

fn are(numbers: &[Numbers], worker: usize, drawn: u64, commits: u64, reclaims: u64) -> bool {
    numbers.get(worker).copied()
        == Some(Numbers {
            drawn,
            commits,
            reclaims,
        })
}

// Each number of a worker rises by one, and no other worker's does.
#[test]
fn numbers_rise(rt: HostRuntime) -> Result<(), Fail> {
    assert!(rt; draws_rise(rt.alloc())?);
    assert!(rt; commits_rise(rt.alloc())?);
    assert!(rt; reclaims_rise(rt.alloc())?);
    Ok(())
}

fn draws_rise(alloc: Global) -> Result<bool, AllocError> {
    let mut drawn = numbers(alloc)?;
    count_draw(&mut drawn, 64);
    Ok(are(&drawn, 64, 1, 0, 0) && are(&drawn, 63, 0, 0, 0))
}

fn commits_rise(alloc: Global) -> Result<bool, AllocError> {
    let mut commits = numbers(alloc)?;
    count_commit(&mut commits, 0);
    Ok(are(&commits, 0, 0, 1, 0) && are(&commits, 1, 0, 0, 0))
}

fn reclaims_rise(alloc: Global) -> Result<bool, AllocError> {
    let mut reclaims = numbers(alloc)?;
    count_reclaim(&mut reclaims, 1);
    Ok(are(&reclaims, 1, 0, 0, 1))
}
