//! The encoded problem.

ghost use Rattle.std.specs.Prelude.{◌≡◌, ◌≤◌, ◌+◌, ◌∷◌, ◌++◌, [], length, map, false, None, Some, IfOk};
ghost use Rattle.std.specs.List.{list_any};
ghost use Rattle.uc_term.specs.Table.{Grows};
ghost use Rattle.uc_term.specs.Tree.{app, of_list, nodes};
ghost use Rattle.uc_term.specs.Encoding.{encoded, reflexive, refuted};
ghost use Rattle.uc_check.specs.Clauses.{AreFresh, equation_of, axioms_of};
ghost use Rattle.uc_problem.specs.Holds.{Agrees, numbers_of};
ghost use Rattle.uc_problem.specs.Marks.{is_open_goal, is_too_large};
ghost use Rattle.uc_problem.specs.Filling.{AddsMarks};
ghost use Rattle.uc_problem.specs.Encodes.{IsEncoded, encoding_of, equations_where, numbers_where, is_ground_goal, last_goal, signature_with};
ghost use Rattle.uc_problem.specs.Kinds.{is_of, AreGoals};
ghost use Rattle.uc_problem.specs.declared.problem.Source.TheVariants as source;

use crate::marking::{is_open_goal, marks};
use crate::{EncodeFault, Encoded, Problem, Source};
use std::alloc::{AllocError, Global};
use uc_clause::{Clause, Sourced};
use uc_term::{Equation, Fresh, Seq, Signature, Sym, Symbols, Term, TermFault};

// Which clauses a list is made of.
#[derive(Clone, Copy)]
pub(crate) enum Kind {
    Axiom,
    Goal,
    OpenGoal,
    GroundGoal,
}

/// The encoded problem, whose goals are all ground. Where no goal has a variable it is the problem as it is. Else the axioms are
/// followed by `eq(X,X) = true` and by `eq(s,t) = false` for each goal of `s` and `t` with a variable, in order; the goals are
/// then the ground goals in order and last `true = false`; and the signature ends with `true`, `false` and `eq`. The symbols
/// are those of `marks`.
///
/// `GoalTooLarge` names the first goal clause with a variable whose sides have more than 4,095 nodes together.
pub fn encode(
    alloc: Global,
    problem: &Problem,
    symbols: &mut Symbols,
) -> Result<Encoded, EncodeFault>
    requires { Agrees symbols.old problem.now }
    ensures encoded { IsEncoded symbols.new problem.now result }
    ensures fresh { IfOk result (λ encoded. AreFresh encoded.fresh problem.now.clauses) }
    ensures grows { Grows symbols.old symbols.new }
    ensures adds { IfOk result (λ encoded. AddsMarks symbols.old symbols.new encoded.fresh) }
{
    match marks(alloc, problem, symbols)? {
        Some(fresh) => Ok(with_marks(alloc, problem, fresh)?),
        None => Ok(as_it_is(alloc, problem)?),
    }
}

// The problem as it is.
fn as_it_is(alloc: Global, problem: &Problem) -> Result<Encoded, AllocError>
    ensures { IfOk result (λ encoded. encoded ≡ encoding_of problem.now None) }
{
    let clauses = problem.clauses.as_slice();
    Ok(Encoded {
        axioms: equations(alloc, clauses, Kind::Axiom)?,
        sources: clause_sources(alloc, problem.axioms.as_slice())?,
        goals: equations(alloc, clauses, Kind::Goal)?,
        goal_clauses: clause_numbers(alloc, problem.goals.as_slice())?,
        fresh: None,
        signature: copy_of(alloc, &problem.signature)?,
    })
}

// The problem with these symbols for its goals with a variable.
fn with_marks(alloc: Global, problem: &Problem, fresh: Fresh) -> Result<Encoded, AllocError>
    requires goals { problem.now.goals ≡ numbers_of false 0 problem.now.clauses }
    requires small { list_any is_too_large problem.now.clauses ≡ false }
    ensures { IfOk result (λ encoded. encoded ≡ encoding_of problem.now (Some fresh)) }
{
    let clauses = problem.clauses.as_slice();
    let goals = problem.goals.as_slice();
    Ok(Encoded {
        axioms: marked_axioms(alloc, clauses, fresh)?,
        sources: marked_sources(alloc, clauses, problem.axioms.as_slice(), goals)?,
        goals: marked_goals(alloc, clauses, fresh)?,
        goal_clauses: marked_goal_clauses(alloc, clauses, goals)?,
        fresh: Some(fresh),
        signature: marked_signature(alloc, &problem.signature, fresh)?,
    })
}

// The axioms, and behind them the goals with a variable as equations.
fn marked_axioms(
    alloc: Global,
    clauses: &[Sourced],
    fresh: Fresh,
) -> Result<Seq<Equation>, AllocError>
    requires { list_any is_too_large clauses.now ≡ false }
    ensures { IfOk result (λ axioms. axioms ≡ encoded fresh (axioms_of clauses.now) (equations_where is_open_goal clauses.now)) }
{
    let mut axioms = equations(alloc, clauses, Kind::Axiom)?;
    axioms.push(reflexive(alloc, fresh)?)?;
    axioms.append(refuted_goals(alloc, clauses, fresh)?)?;
    Ok(axioms)
}

// Where these axioms come from.
fn marked_sources(
    alloc: Global,
    clauses: &[Sourced],
    axioms: &[u32],
    goals: &[u32],
) -> Result<Seq<Source>, AllocError>
    requires { goals.now ≡ numbers_of false 0 clauses.now }
    ensures { IfOk result (λ sources. sources ≡ map source.Clause axioms.now ++ source.Reflexive ∷ map source.Goal (numbers_where is_open_goal 0 clauses.now)) }
{
    let open = numbers(alloc, clauses, goals, Kind::OpenGoal)?;
    let mut sources = clause_sources(alloc, axioms)?;
    sources.push(Source::Reflexive)?;
    sources.append(goal_sources(alloc, open.as_slice())?)?;
    Ok(sources)
}

// The ground goals, and at last `true = false`.
fn marked_goals(
    alloc: Global,
    clauses: &[Sourced],
    fresh: Fresh,
) -> Result<Seq<Equation>, AllocError>
    ensures { IfOk result (λ goals. goals ≡ equations_where is_ground_goal clauses.now ++ last_goal fresh ∷ []) }
{
    let mut goals = equations(alloc, clauses, Kind::GroundGoal)?;
    goals.push(Equation {
        left: term_of(alloc, fresh.yes, &[])?,
        right: term_of(alloc, fresh.no, &[])?,
    })?;
    Ok(goals)
}

// Which clauses these goals are.
fn marked_goal_clauses(
    alloc: Global,
    clauses: &[Sourced],
    goals: &[u32],
) -> Result<Seq<Option<u32>>, AllocError>
    requires { goals.now ≡ numbers_of false 0 clauses.now }
    ensures { IfOk result (λ numbers. numbers ≡ map Some (numbers_where is_ground_goal 0 clauses.now) ++ None ∷ []) }
{
    let ground = numbers(alloc, clauses, goals, Kind::GroundGoal)?;
    let mut goal_clauses = clause_numbers(alloc, ground.as_slice())?;
    goal_clauses.push(None)?;
    Ok(goal_clauses)
}

// The signature with the encoding's symbols behind it.
fn marked_signature(
    alloc: Global,
    signature: &Signature,
    fresh: Fresh,
) -> Result<Signature, AllocError>
    ensures { IfOk result (λ marked. marked ≡ signature_with fresh signature.now) }
{
    let mut marked = copy_of(alloc, signature)?;
    marked.symbols.push(fresh.yes)?;
    marked.symbols.push(fresh.no)?;
    marked.symbols.push(fresh.eq)?;
    Ok(marked)
}

// An equal signature.
fn copy_of(alloc: Global, signature: &Signature) -> Result<Signature, AllocError>
    ensures { IfOk result (λ copied. copied ≡ signature.now) }
{
    let symbols = Vec::from_slice(alloc, signature.symbols.as_slice())?;
    Ok(Signature {
        symbols: Seq::from_vec(symbols),
        least: signature.least,
        least_is_fresh: signature.least_is_fresh,
    })
}

// The numbers of the goals of a kind, of all goals' numbers.
fn numbers(
    alloc: Global,
    clauses: &[Sourced],
    goals: &[u32],
    kind: Kind,
) -> Result<Seq<u32>, AllocError>
    requires goals { goals.now ≡ numbers_of false 0 clauses.now }
    requires kind { AreGoals kind }
    ensures { IfOk result (λ numbers. numbers ≡ numbers_where (is_of kind) 0 clauses.now) }
{
    let mut numbers = Seq::new(alloc);
    for number in goals {
        if is_of(kind, &clauses[*number as usize]) {
            numbers.push(*number)?;
        }
    }
    Ok(numbers)
}

// The equations of the clauses of a kind, in order.
fn equations(alloc: Global, clauses: &[Sourced], kind: Kind) -> Result<Seq<Equation>, AllocError>
    ensures { IfOk result (λ equations. equations ≡ equations_where (is_of kind) clauses.now) }
{
    let mut equations = Seq::new(alloc);
    for sourced in clauses {
        if is_of(kind, sourced) {
            equations.push(equation_of(alloc, &sourced.clause)?)?;
        }
    }
    Ok(equations)
}

// The goals with a variable as equations.
fn refuted_goals(
    alloc: Global,
    clauses: &[Sourced],
    fresh: Fresh,
) -> Result<Seq<Equation>, AllocError>
    requires { list_any is_too_large clauses.now ≡ false }
    ensures { IfOk result (λ equations. equations ≡ map (refuted fresh) (equations_where is_open_goal clauses.now)) }
{
    let mut equations = Seq::new(alloc);
    for sourced in clauses {
        if is_open_goal(sourced) {
            equations.push(refuted(alloc, fresh, &sourced.clause)?)?;
        }
    }
    Ok(equations)
}

// `eq(s,t) = false` for the goal of `s` and `t`.
fn refuted(alloc: Global, fresh: Fresh, goal: &Clause) -> Result<Equation, AllocError>
    requires { nodes goal.now.left + nodes goal.now.right ≤ 4095 }
    ensures { IfOk result (λ equation. equation ≡ refuted fresh (equation_of goal.now)) }
{
    let sides = [goal.left.copy(alloc)?, goal.right.copy(alloc)?];
    Ok(Equation {
        left: term_of(alloc, fresh.eq, &sides)?,
        right: term_of(alloc, fresh.no, &[])?,
    })
}

// `eq(X,X) = true`
fn reflexive(alloc: Global, fresh: Fresh) -> Result<Equation, AllocError>
    ensures { IfOk result (λ equation. equation ≡ reflexive fresh) }
{
    let sides = [Term::var(alloc, 0)?, Term::var(alloc, 0)?];
    Ok(Equation {
        left: term_of(alloc, fresh.eq, &sides)?,
        right: term_of(alloc, fresh.yes, &[])?,
    })
}

// A symbol with these arguments.
fn term_of(alloc: Global, sym: Sym, args: &[Term]) -> Result<Term, AllocError>
    requires few { length args.now ≤ 255 }
    requires small { nodes (app sym (of_list args.now)) ≤ 4096 }
    ensures { IfOk result (λ term. term ≡ app sym (of_list args.now)) }
{
    match Term::app(alloc, sym, args) {
        Ok(term) => Ok(term),
        Err(TermFault::NoMemory) => Err(AllocError),
        Err(TermFault::TooLarge) => unreachable!(),
        Err(TermFault::NoSuchPosition) => unreachable!(),
        Err(TermFault::ArityClash { .. }) => unreachable!(),
        Err(TermFault::TooMany { .. }) => unreachable!(),
    }
}

// Whether a clause is of a kind.
fn is_of(kind: Kind, sourced: &Sourced) -> bool
    ensures { result ≡ is_of kind sourced.now }
{
    match kind {
        Kind::Axiom => sourced.clause.positive,
        Kind::Goal => !sourced.clause.positive,
        Kind::OpenGoal => is_open_goal(sourced),
        Kind::GroundGoal => !sourced.clause.positive && !is_open_goal(sourced),
    }
}

// The equation between a clause's sides.
fn equation_of(alloc: Global, clause: &Clause) -> Result<Equation, AllocError>
    ensures { IfOk result (λ equation. equation ≡ equation_of clause.now) }
{
    Ok(Equation {
        left: clause.left.copy(alloc)?,
        right: clause.right.copy(alloc)?,
    })
}

fn clause_sources(alloc: Global, numbers: &[u32]) -> Result<Seq<Source>, AllocError>
    ensures { IfOk result (λ sources. sources ≡ map source.Clause numbers.now) }
{
    let mut sources = Seq::new(alloc);
    for number in numbers {
        sources.push(Source::Clause(*number))?;
    }
    Ok(sources)
}

fn goal_sources(alloc: Global, numbers: &[u32]) -> Result<Seq<Source>, AllocError>
    ensures { IfOk result (λ sources. sources ≡ map source.Goal numbers.now) }
{
    let mut sources = Seq::new(alloc);
    for number in numbers {
        sources.push(Source::Goal(*number))?;
    }
    Ok(sources)
}

fn clause_numbers(alloc: Global, numbers: &[u32]) -> Result<Seq<Option<u32>>, AllocError>
    ensures { IfOk result (λ clauses. clauses ≡ map Some numbers.now) }
{
    let mut clauses = Seq::new(alloc);
    for number in numbers {
        clauses.push(Some(*number))?;
    }
    Ok(clauses)
}
