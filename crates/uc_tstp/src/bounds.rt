//! The bounds that every term of a proof has by its type, told to contracts. Nothing is changed and nothing refused.

ghost use Rattle.std.specs.Prelude.{ℕ, ◌≤◌};
ghost use Rattle.uc_clause.specs.Printable.{IsNumberedNode};
ghost use Rattle.uc_tstp.specs.Bounds.{IsBounded, AreBoundedSteps, IsBoundedSource, IsBoundedLine, AreBounded};

use uc_check::{Line, LineSource, LineStep};
use uc_term::{Node, Term};

/// Each term of the lines has at most 4,096 nodes, and variables whose numbers have 32 bits.
pub(crate) fn see_bounds(lines: &[Line])
    ensures { AreBounded lines.now }
{
    for line in lines {
        see_line(line);
    }
}

fn see_line(line: &Line)
    ensures { IsBoundedLine line.now }
{
    see_term(&line.left);
    see_term(&line.right);
    see_source(&line.source);
}

fn see_source(source: &LineSource)
    ensures { IsBoundedSource source.now }
{
    match source {
        LineSource::Chain { start, steps, .. } => {
            see_term(start);
            see_steps(steps.as_slice());
        }
        LineSource::File(_) => {}
        LineSource::Reflexive { .. } => {}
        LineSource::EncodeGoal { .. } => {}
        LineSource::Refute { .. } => {}
    }
}

fn see_steps(steps: &[LineStep])
    ensures { AreBoundedSteps steps.now }
{
    for step in steps {
        see_term(&step.to);
    }
}

fn see_term(term: &Term)
    ensures { IsBounded term.now }
{
    let nodes = term.as_nodes();
    for node in nodes {
        see_node(*node);
    }
}

fn see_node(node: Node)
    ensures { IsNumberedNode node }
{
    match node {
        Node::Var(_) => {}
        Node::App(..) => {}
    }
}
