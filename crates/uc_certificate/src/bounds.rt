//! The bounds that every number and each term of a certificate has by its type, told to contracts. Nothing is changed and nothing
//! refused.

ghost use Rattle.std.specs.Prelude.{ℕ, ◌+◌, ◌<◌, ◌^◌, length};
ghost use Rattle.std.specs.List.{AllByRecursion};
ghost use Rattle.uc_clause.specs.Printable.{IsNumberedNode};
ghost use Rattle.uc_tstp.specs.Bounds.{IsBounded, AreBoundedSteps, IsBoundedSource, IsBoundedLine, AreBounded};
ghost use Rattle.uc_certificate.specs.Bounds.{IsShort, IsBoundedWhat, IsBoundedMove, AreBoundedMoves, IsBoundedCase, IsBoundedTriple, IsBoundedEnd, IsBoundedJoin, IsBoundedCertificate};

use crate::{AcTriple, Case, Certificate, End, Join, Move, What};
use uc_check::{Line, LineSource, LineStep};
use uc_term::{Equation, Node, Term};

/// The facts can be counted, numbers have 32 bits, and terms at most 4,096 nodes and variables whose numbers have 32 bits.
pub(crate) fn see_bounds(certificate: &Certificate)
    ensures { IsBoundedCertificate certificate.now }
{
    see_few(certificate.text.system.facts.as_slice());
    see_lines(certificate.lines.lines.as_slice());
    see_joins(certificate.joins.as_slice());
}

fn see_few(facts: &[Equation])
    ensures { length facts.now + 1 < 2 ^ 64 }
{
    let _ = facts.len();
}

fn see_lines(lines: &[Line])
    ensures { AreBounded lines.now }
{
    for line in lines {
        see_line(line);
    }
}

fn see_line(line: &Line)
    ensures { IsBoundedLine line.now }
{
    see_term(&line.left);
    see_term(&line.right);
    see_source(&line.source);
}

fn see_source(source: &LineSource)
    ensures { IsBoundedSource source.now }
{
    match source {
        LineSource::Chain { start, steps, .. } => {
            see_term(start);
            see_steps(steps.as_slice());
        }
        LineSource::File(_) => {}
        LineSource::Reflexive { .. } => {}
        LineSource::EncodeGoal { .. } => {}
        LineSource::Refute { .. } => {}
    }
}

fn see_steps(steps: &[LineStep])
    ensures { AreBoundedSteps steps.now }
{
    for step in steps {
        see_term(&step.to);
    }
}

fn see_term(term: &Term)
    ensures { IsBounded term.now }
{
    let nodes = term.as_nodes();
    for node in nodes {
        see_node(*node);
    }
}

fn see_node(node: Node)
    ensures { IsNumberedNode node }
{
    match node {
        Node::Var(_) => {}
        Node::App(..) => {}
    }
}

fn see_joins(joins: &[Join])
    ensures { AllByRecursion IsBoundedJoin joins.now }
{
    for join in joins {
        see_join(join);
    }
}

fn see_join(join: &Join)
    ensures { IsBoundedJoin join.now }
{
    see_what(&join.what);
    see_moves(join.left.as_slice());
    see_moves(join.right.as_slice());
    see_end(&join.end);
}

fn see_what(what: &What)
    ensures { IsBoundedWhat what.now }
{
    match what {
        What::Axiom(number) => see_number(*number),
        What::Overlap { outer, inner, .. } => {
            see_number(*outer);
            see_number(*inner);
        }
    }
}

fn see_number(number: u32)
    ensures { IsShort number }
{
    let _ = number;
}

fn see_moves(moves: &[Move])
    ensures { AreBoundedMoves moves.now }
{
    for step in moves {
        see_move(step);
    }
}

fn see_move(step: &Move)
    ensures { IsBoundedMove step.now }
{
    see_number(step.fact);
    see_term(&step.to);
}

fn see_end(end: &End)
    ensures { IsBoundedEnd end.now }
{
    match end {
        End::Same => {}
        End::Instance(number) => see_number(*number),
        End::Orders(cases) => see_cases(cases.as_slice()),
        End::Ac(triples) => see_triples(triples.as_slice()),
    }
}

fn see_cases(cases: &[Case])
    ensures { AllByRecursion IsBoundedCase cases.now }
{
    for case in cases {
        see_case(case);
    }
}

fn see_case(case: &Case)
    ensures { IsBoundedCase case.now }
{
    see_moves(case.left.as_slice());
    see_moves(case.right.as_slice());
}

fn see_triples(triples: &[AcTriple])
    ensures { AllByRecursion IsBoundedTriple triples.now }
{
    for triple in triples {
        see_triple(*triple);
    }
}

fn see_triple(triple: AcTriple)
    ensures { IsBoundedTriple triple }
{
    see_number(triple.assoc);
    see_number(triple.comm);
    see_number(triple.extended);
}
