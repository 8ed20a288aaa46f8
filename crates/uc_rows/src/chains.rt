//! Chains that go on.

ghost use Rattle.std.specs.Prelude.{◌≡◌, ◌+◌, ◌≤◌, ◌++◌, [], length, vec_len, vec_capacity, OnOk, OnErr, IfErr};
ghost use Rattle.uc_fact.specs.Chains.{end_of, followed_by};
ghost use Rattle.uc_machine.specs.Effects.{goes_on};
ghost use Rattle.uc_rows.specs.GoalRows.{target_of};

use crate::goals::GoalRow;
use std::alloc::{AllocError, Global};
use std::mem;
use uc_fact::{Chain, Step};
use uc_term::{Seq, Term};

/// The term to which a chain leads.
pub fn end_of(chain: &Chain) -> &Term
    ensures { result.now ≡ end_of chain.now }
{
    match chain.steps.as_slice().last() {
        None => &chain.start,
        Some(step) => &step.to,
    }
}

/// Takes the steps of a chain out, for more to be put behind them.
fn steps_of(alloc: Global, chain: &mut Chain) -> Vec<Step>
    ensures steps { result.items ≡ chain.old.steps }
    ensures rest { chain.new ≡ record chain.old { steps = [] } }
{
    mem::replace(&mut chain.steps, Seq::new(alloc)).into_vec()
}

/// Makes room for so many more steps of each.
fn make_room(
    left: &mut Vec<Step>,
    right: &mut Vec<Step>,
    more_left: usize,
    more_right: usize,
) -> Result<(), AllocError>
    ensures left { left.new.items ≡ left.old.items }
    ensures right { right.new.items ≡ right.old.items }
    ensures room_left { OnOk result (vec_len left.new + more_left ≤ vec_capacity left.new) }
    ensures room_right { OnOk result (vec_len right.new + more_right ≤ vec_capacity right.new) }
{
    left.reserve(more_left)?;
    right.reserve(more_right)
}

/// Puts the steps of two chains behind those of a goal. For want of memory nothing changes, and the chains are handed back.
pub fn go_on(
    alloc: Global,
    row: &mut GoalRow,
    left: Chain,
    right: Chain,
) -> Result<(), (Chain, Chain)>
    ensures ok { OnOk result (target_of row.new ≡ goes_on left right (target_of row.old)) }
    ensures err { OnErr result (row.new ≡ row.old) }
    ensures back { IfErr result (λ e. (e.0 ≡ left) × (e.1 ≡ right)) }
{
    let mut left_steps = steps_of(alloc, &mut row.left);
    let mut right_steps = steps_of(alloc, &mut row.right);
    match make_room(
        &mut left_steps,
        &mut right_steps,
        left.steps.len(),
        right.steps.len(),
    ) {
        Ok(()) => {
            put_behind(&mut left_steps, left);
            put_behind(&mut right_steps, right);
            row.left.steps = Seq::from_vec(left_steps);
            row.right.steps = Seq::from_vec(right_steps);
            Ok(())
        }
        Err(_) => {
            row.left.steps = Seq::from_vec(left_steps);
            row.right.steps = Seq::from_vec(right_steps);
            Err((left, right))
        }
    }
}

/// Puts the steps of a chain behind others, in room that is there.
fn put_behind(steps: &mut Vec<Step>, chain: Chain)
    requires { vec_len steps.old + length chain.steps ≤ vec_capacity steps.old }
    ensures { steps.new.items ≡ steps.old.items ++ chain.steps }
{
    let mut more = chain.steps.into_vec();
    match steps.append(&mut more) {
        Ok(()) => (),
        Err(_) => prove!(false),
    }
}
