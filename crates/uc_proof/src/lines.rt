//! The line of each part.

ghost use Rattle.std.specs.Prelude.{◌≡◌, ◌<◌, ◌+◌, ◌^◌, ◌∷◌, [], ℕ, List, map, Some, slice_get, IfOk};
ghost use Rattle.uc_term.specs.declared.equation.Equation.{Equation};
ghost use Rattle.uc_clause.specs.declared.clause.Sourced.{Sourced};
ghost use Rattle.uc_fact.specs.declared.chain.Chain.{Chain as AnyChain};
ghost use Rattle.uc_fact.specs.declared.fact.Fact.{Fact};
ghost use Rattle.uc_fact.specs.Live.{equation_of};
ghost use Rattle.uc_problem.specs.declared.problem.Problem.{Problem};
ghost use Rattle.uc_proof.specs.declared.aim.Aim.{Aim as AnyAim};
ghost use Rattle.uc_proof.specs.declared.aim.Aim.TheVariants as aim;
ghost use Rattle.uc_proof.specs.declared.part.Part.TheVariants as part;
ghost use Rattle.uc_proof.specs.Written.{line_name, clause_line, equation_line, refute_line, Says};
ghost use Rattle.uc_proof.specs.Making.{IsAmong, IsPartReady, IsSourceReady, IsGoalReady, IsConclusionReady, IsRefutationReady, IsReady, IsChainLine};

use crate::aim::Aim;
use crate::part::Part;
use crate::plan::Plan;
use crate::steps::chain_source;
use itoa::Buffer;
use std::alloc::{AllocError, Global};
use uc_check::{Line, LineSource};
use uc_clause::{Clause, Name};
use uc_fact::{Chain, Fact};
use uc_problem::{Encoded, Problem, Source};
use uc_term::{Equation, Seq, Term, Text};

/// What the line of a part says, with the variables of its clauses and chains.
pub(crate) fn line_of(
    alloc: Global,
    plan: &Plan,
    problem: &Problem,
    encoded: &Encoded,
    facts: &[&Fact],
    aim: &Aim,
    number: usize,
    part: Part,
) -> Result<Line, AllocError>
    requires few { number < 2 ^ 32 }
    requires ready { IsPartReady problem.now encoded.now (map (λ f. f.now) facts.now) aim.now plan.now part }
    ensures { IfOk result (Says problem.now encoded.now (map (λ f. f.now) facts.now) aim.now plan.now (line_name number) part) }
{
    let name = line_name(alloc, number)?;
    match part {
        Part::Axiom(axiom) => axiom_line(alloc, plan, problem, encoded, axiom, name),
        Part::Denial(clause) => denial_line(alloc, problem, clause, name),
        Part::Fact(fact) => fact_line(alloc, plan, facts[fact as usize], name),
        Part::Conclusion => conclusion_line(alloc, plan, encoded, aim, name),
        Part::Refutation => refutation_line(alloc, plan, encoded, aim, name),
    }
}

// `p` and a number from 1.
fn line_name(alloc: Global, number: usize) -> Result<Text, AllocError>
    requires { number < 2 ^ 32 }
    ensures { IfOk result (λ name. name ≡ line_name number) }
{
    let mut name = Text::new(alloc);
    let mut buffer = Buffer::new();
    name.extend(b"p")?;
    name.extend(buffer.format(number + 1).as_bytes())?;
    Ok(name)
}

fn axiom_line(
    alloc: Global,
    plan: &Plan,
    problem: &Problem,
    encoded: &Encoded,
    number: u32,
    name: Text,
) -> Result<Line, AllocError>
    requires { (e : Equation) × (slice_get encoded.now.axioms number ≡ Some e) × IsSourceReady problem.now plan.now (slice_get encoded.now.sources number) }
    ensures { (facts : List Fact) (a : AnyAim) → IfOk result (Says problem.now encoded.now facts a plan.now name (part.Axiom number)) }
{
    let equation = &encoded.axioms.as_slice()[number as usize];
    match encoded.sources.as_slice()[number as usize] {
        Source::Clause(clause) => denial_line(alloc, problem, clause, name),
        Source::Reflexive => {
            let parents = Seq::new(alloc);
            equation_line(alloc, name, LineSource::Reflexive { parents }, equation)
        }
        Source::Goal(clause) => {
            let parents = one(alloc, plan.number(Part::Denial(clause)))?;
            equation_line(alloc, name, LineSource::EncodeGoal { parents }, equation)
        }
    }
}

// The line of the clause of this number.
fn denial_line(
    alloc: Global,
    problem: &Problem,
    clause: u32,
    name: Text,
) -> Result<Line, AllocError>
    requires { (s : Sourced) × (slice_get problem.now.clauses clause ≡ Some s) }
    ensures { (s : Sourced) → slice_get problem.now.clauses clause ≡ Some s → IfOk result (λ line. line ≡ clause_line name s.clause) }
{
    clause_line(
        alloc,
        &problem.clauses.as_slice()[clause as usize].clause,
        name,
    )
}

fn clause_line(alloc: Global, clause: &Clause, name: Text) -> Result<Line, AllocError>
    ensures { IfOk result (λ line. line ≡ clause_line name clause.now) }
{
    Ok(Line {
        name,
        source: LineSource::File(Name {
            text: clause.name.text.copy(alloc)?,
            integer: clause.name.integer,
        }),
        left: clause.left.copy(alloc)?,
        right: clause.right.copy(alloc)?,
        positive: clause.positive,
    })
}

fn fact_line(alloc: Global, plan: &Plan, fact: &Fact, name: Text) -> Result<Line, AllocError>
    requires { IsReady plan.now fact.now.chain }
    ensures { IfOk result (IsChainLine plan.now fact.now.chain name (equation_of fact.now)) }
{
    let source = chain_source(alloc, plan, &fact.chain)?;
    line(alloc, name, source, &fact.left, &fact.right)
}

// The line of a goal's chain.
fn conclusion_line(
    alloc: Global,
    plan: &Plan,
    encoded: &Encoded,
    aim: &Aim,
    name: Text,
) -> Result<Line, AllocError>
    requires { IsConclusionReady encoded.now plan.now aim.now }
    ensures { (problem : Problem) (facts : List Fact) → IfOk result (Says problem encoded.now facts aim.now plan.now name part.Conclusion) }
{
    match aim {
        Aim::Goal { chain, goal } => goal_line(alloc, plan, encoded, chain, *goal, name),
        Aim::Facts(_) => unreachable!(),
    }
}

fn goal_line(
    alloc: Global,
    plan: &Plan,
    encoded: &Encoded,
    chain: &Chain,
    goal: u32,
    name: Text,
) -> Result<Line, AllocError>
    requires { (e : Equation) × (slice_get encoded.now.goals goal ≡ Some e) × IsReady plan.now chain.now }
    ensures { (e : Equation) → slice_get encoded.now.goals goal ≡ Some e → IfOk result (IsChainLine plan.now chain.now name e) }
{
    let source = chain_source(alloc, plan, chain)?;
    equation_line(
        alloc,
        name,
        source,
        &encoded.goals.as_slice()[goal as usize],
    )
}

fn equation_line(
    alloc: Global,
    name: Text,
    source: LineSource,
    equation: &Equation,
) -> Result<Line, AllocError>
    ensures { IfOk result (λ line. line ≡ equation_line name source equation.now) }
{
    line(alloc, name, source, &equation.left, &equation.right)
}

fn line(
    alloc: Global,
    name: Text,
    source: LineSource,
    left: &Term,
    right: &Term,
) -> Result<Line, AllocError>
    ensures { IfOk result (λ line. line ≡ equation_line name source (record { left = left.now; right = right.now })) }
{
    Ok(Line {
        name,
        source,
        left: left.copy(alloc)?,
        right: right.copy(alloc)?,
        positive: true,
    })
}

// The line of a goal's refutation.
fn refutation_line(
    alloc: Global,
    plan: &Plan,
    encoded: &Encoded,
    aim: &Aim,
    name: Text,
) -> Result<Line, AllocError>
    requires { IsRefutationReady encoded.now plan.now aim.now }
    ensures { (problem : Problem) (facts : List Fact) → IfOk result (Says problem encoded.now facts aim.now plan.now name part.Refutation) }
{
    match aim {
        Aim::Goal { goal, .. } => refuted_line(alloc, plan, encoded, *goal, name),
        Aim::Facts(_) => unreachable!(),
    }
}

fn refuted_line(
    alloc: Global,
    plan: &Plan,
    encoded: &Encoded,
    goal: u32,
    name: Text,
) -> Result<Line, AllocError>
    requires { IsAmong part.Conclusion plan.now × IsGoalReady plan.now (slice_get encoded.now.goal_clauses goal) }
    ensures { (problem : Problem) (facts : List Fact) (chain : AnyChain) → IfOk result (Says problem encoded.now facts (aim.Goal chain goal) plan.now name part.Refutation) }
{
    let chain = plan.number(Part::Conclusion);
    match encoded.goal_clauses.as_slice()[goal as usize] {
        Some(clause) => {
            let parents = two(alloc, plan.number(Part::Denial(clause)), chain)?;
            refute_line(alloc, parents, name)
        }
        None => {
            let parents = one(alloc, chain)?;
            refute_line(alloc, parents, name)
        }
    }
}

fn refute_line(alloc: Global, parents: Seq<u32>, name: Text) -> Result<Line, AllocError>
    ensures { IfOk result (λ line. line ≡ refute_line name parents) }
{
    Ok(Line {
        name,
        source: LineSource::Refute { parents },
        left: Term::var(alloc, 0)?,
        right: Term::var(alloc, 0)?,
        positive: true,
    })
}

fn one(alloc: Global, number: u32) -> Result<Seq<u32>, AllocError>
    ensures { IfOk result (λ list. list ≡ number ∷ []) }
{
    Ok(Seq::from_vec(vec![in alloc; number]?))
}

fn two(alloc: Global, first: u32, second: u32) -> Result<Seq<u32>, AllocError>
    ensures { IfOk result (λ list. list ≡ first ∷ second ∷ []) }
{
    Ok(Seq::from_vec(vec![in alloc; first, second]?))
}
