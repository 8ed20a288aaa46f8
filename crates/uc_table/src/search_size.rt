//! The search for a table of one size: cells get values and lose them again, in lexicographic order of the prefixes.

ghost use Rattle.std.specs.Prelude.{◌≡◌, ℕ, ◌+◌, ◌<◌, ◌≤◌, ◌++◌, ◌∷◌, [], length, true, false, IfOk, OnOk, IfSome, MatchOption};
ghost use Rattle.uc_table.specs.SearchState.{IsReady, IsOpenState, IsSet, IsRefutedIn, GoesOn, IsWhole, StepsBack, Ends};

use crate::search_instances::{Form, follow};
use crate::search_waiting::Waiting;
use std::alloc::AllocError;

/// What a search at one size goes by: the size, how many cells a table has, and the clauses.
#[derive(Drop)]
pub(crate) struct Rules {
    pub size: u32,
    pub cells: usize,
    pub forms: Vec<Form>,
}

/// The values of the first cells, for each of them how many entries waited before it got its value, and what waits.
#[derive(Drop)]
pub(crate) struct State {
    pub prefix: Vec<u32>,
    pub marks: Vec<usize>,
    pub waiting: Waiting,
}

/// What the search of a size ends with: a model or none, after so many visited prefixes, or the end of the budget.
#[derive(Clone, Copy)]
pub(crate) enum End {
    Found(u32),
    None(u32),
    Spent,
}

/// Gives the next cell a value. True comes exactly where that refutes the prefix.
fn set(state: &mut State, rules: &Rules, stack: &mut [u32], value: u32) -> Result<bool, AllocError>
    requires ready { IsReady (length stack.old) rules.now }
    requires open { IsOpenState rules.now state.old }
    requires room { length state.old.prefix.items < rules.now.cells }
    requires value { value < rules.now.size }
    ensures prefix { OnOk result (state.new.prefix.items ≡ state.old.prefix.items ++ value ∷ []) }
    ensures set { OnOk result (IsSet rules.now state.new) }
    ensures refuted { IfOk result (λ r. r ≡ true → IsRefutedIn rules.now state.new.prefix.items) }
    ensures open { IfOk result (λ r. r ≡ false → IsOpenState rules.now state.new) }
{
    let cell = state.prefix.len();
    state.marks.push(state.waiting.entries.len())?;
    state.prefix.push(value)?;
    let refuted = follow(
        &mut state.waiting,
        &rules.forms,
        rules.size,
        &state.prefix,
        stack,
        cell,
    )?;
    Ok(refuted)
}

/// Takes the value of the last cell back, and returns it.
fn take_back(state: &mut State, rules: &Rules) -> u32
    requires set { IsSet rules.now state.old }
    ensures prefix { state.old.prefix.items ≡ state.new.prefix.items ++ result ∷ [] }
    ensures open { IsOpenState rules.now state.new }
{
    let last = state.prefix.len() - 1;
    let value = state.prefix[last];
    state.waiting.take_back(state.marks[last]);
    state.prefix.truncate(last);
    state.marks.truncate(last);
    value
}

/// Visits the prefix with one value more: returns the next value that is due, or none for a model.
fn visit(
    state: &mut State,
    rules: &Rules,
    stack: &mut [u32],
    value: u32,
) -> Result<Option<u32>, AllocError>
    requires ready { IsReady (length stack.old) rules.now }
    requires open { IsOpenState rules.now state.old }
    requires room { length state.old.prefix.items < rules.now.cells }
    requires value { value < rules.now.size }
    ensures open { OnOk result (IsOpenState rules.now state.new) }
    ensures visited { IfOk result (λ r. MatchOption r (IsWhole rules.now state.old.prefix.items value state.new.prefix.items) (GoesOn rules.now state.old.prefix.items value state.new.prefix.items)) }
    ensures small { IfOk result (λ r. IfSome r (λ next. next ≤ rules.now.size)) }
{
    if set(state, rules, stack, value)? {
        take_back(state, rules);
        return Ok(Some(value + 1));
    }
    if state.prefix.len() == rules.cells {
        return Ok(None);
    }
    Ok(Some(0))
}

/// Takes the last cell's value back, behind which all values are done with: returns the next value of that cell, or none where no
/// cell has a value.
fn step_back(state: &mut State, rules: &Rules) -> Option<u32>
    requires open { IsOpenState rules.now state.old }
    ensures open { IsOpenState rules.now state.new }
    ensures back { MatchOption result (state.old.prefix.items ≡ []) (StepsBack rules.now state.old.prefix.items state.new.prefix.items) }
    ensures small { IfSome result (λ next. next ≤ rules.now.size) }
{
    if state.prefix.is_empty() {
        return None;
    }
    Some(take_back(state, rules) + 1)
}

/// Goes through the prefixes of a size, at most so many of them.
pub(crate) fn go_through(
    state: &mut State,
    rules: &Rules,
    stack: &mut [u32],
    budget: u32,
) -> Result<End, AllocError>
    requires ready { IsReady (length stack.old) rules.now }
    requires open { IsOpenState rules.now state.old }
    requires start { state.old.prefix.items ≡ [] }
    requires some { 0 < rules.now.cells }
    ensures { IfOk result (Ends rules.now budget state.new.prefix.items) }
{
    let mut visited = 0;
    let mut next = 0;
    loop {
        if next < rules.size {
            if visited == budget {
                return Ok(End::Spent);
            }
            visited += 1;
            match visit(state, rules, stack, next)? {
                Some(value) => next = value,
                None => return Ok(End::Found(visited)),
            }
        } else {
            match step_back(state, rules) {
                Some(value) => next = value,
                None => return Ok(End::None(visited)),
            }
        }
    }
}
