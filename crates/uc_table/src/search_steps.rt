//! Steps that evaluate the two sides of a clause under an assignment, as far as a prefix of the cells has values.

ghost use Rattle.std.specs.Prelude.{◌≡◌, ℕ, ◌+◌, ◌^◌, ◌<◌, ◌≤◌, [], length, drop};
ghost use Rattle.uc_table.specs.Tables.{AreValues};
ghost use Rattle.uc_table.specs.SearchSteps.{run, take_step, IsStep, AreSteps, IsTaken, IsOutcome};

use crate::places::place_of;

/// A step over a stack of values.
#[derive(Clone, Copy)]
pub(crate) enum Step {
    /// Pushes the value of a variable: the assignment's digit of this unit.
    Variable(u32),
    /// Replaces so many values by that of the symbol whose first cell has this place.
    Apply(u32, u32),
    /// Ends the evaluation: the symbol has no cell.
    Foreign,
}

/// What a step comes to: the place of the stack's top; the cell that has no value yet; or that there is none.
#[derive(Clone, Copy)]
pub(crate) enum Taken {
    Top(usize),
    Waits(u32),
    Never,
}

/// What an evaluation comes to: the values of both sides; the first cell that has no value yet; or that there is none.
#[derive(Clone, Copy)]
pub(crate) enum Outcome {
    Sides(u32, u32),
    Waits(u32),
    Never,
}

/// Takes a step on the stack that begins at `top`.
fn take_step(
    step: Step,
    size: u32,
    assignment: u32,
    prefix: &[u32],
    stack: &mut [u32],
    top: usize,
) -> Taken
    requires size { 0 < size }
    requires step { IsStep size step }
    requires prefix { AreValues size prefix.now }
    requires room { 1 ≤ top }
    requires within { top ≤ length stack.old }
    requires live { AreValues size (drop top stack.old) }
    ensures { IsTaken size top stack.new (take_step size assignment prefix.now step (drop top stack.old)) result }
{
    match step {
        Step::Variable(unit) => {
            stack[top - 1] = assignment / unit % size;
            Taken::Top(top - 1)
        }
        Step::Apply(first, arguments) => {
            let count = arguments as usize;
            if stack.len() - top < count {
                return Taken::Never;
            }
            let cell = first as usize + place_of(size, &stack[top..top + count]);
            if cell >= prefix.len() {
                return Taken::Waits(cell as u32);
            }
            let rest = top + count - 1;
            stack[rest] = prefix[cell];
            Taken::Top(rest)
        }
        Step::Foreign => Taken::Never,
    }
}

/// Evaluates the two sides of a clause, whose steps these are, the left side first.
#[inline(never)]
pub(crate) fn run(
    steps: &[Step],
    size: u32,
    assignment: u32,
    prefix: &[u32],
    stack: &mut [u32],
) -> Outcome
    requires size { 0 < size }
    requires steps { AreSteps size steps.now }
    requires prefix { AreValues size prefix.now }
    requires room { length steps.now ≤ length stack.old }
    ensures { IsOutcome (run size assignment prefix.now steps.now []) result }
{
    let mut top = stack.len();
    for step in steps {
        match take_step(*step, size, assignment, prefix, stack, top) {
            Taken::Top(next) => top = next,
            Taken::Waits(cell) => return Outcome::Waits(cell),
            Taken::Never => return Outcome::Never,
        }
    }
    if stack.len() - top == 2 {
        return Outcome::Sides(stack[top + 1], stack[top]);
    }
    Outcome::Never
}
