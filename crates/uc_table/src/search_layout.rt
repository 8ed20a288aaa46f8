//! The places of cells in one row, and the clauses as steps.

ghost use Rattle.std.specs.Prelude.{◌≡◌, ℕ, ◌+◌, ◌<◌, ◌≤◌, ◌^◌, ◌++◌, max, length, drop, take, IfOk, OnOk, MatchOption};
ghost use Rattle.uc_term.specs.Gathering.{HasAll};
ghost use Rattle.uc_check.specs.Clauses.{equation_of};
ghost use Rattle.uc_table.specs.Tables.{MOST_CELLS, MOST_ASSIGNMENTS, cells_for};
ghost use Rattle.uc_table.specs.Checks.{AreFewEnough, variable_count};
ghost use Rattle.uc_table.specs.Against.{nodes_variables, node_variables};
ghost use Rattle.uc_table.specs.SearchCells.{first_cell};
ghost use Rattle.uc_table.specs.SearchForms.{AreFirsts, IsLaidOut, step_of, steps_of, IsFormOf, AreFormsOf};

use crate::MAX_CELLS;
use crate::checking::variable_count;
use crate::evaluating::numbers_of;
use crate::places::lists_of;
use crate::search_instances::Form;
use crate::search_reads::reads_of;
use crate::search_steps::Step;
use std::alloc::{AllocError, Global};
use uc_clause::{Clause, Sourced};
use uc_term::{Node, Sym, Symbols};

/// Where the cells of a table of this size stand: for each symbol of the table of symbols its number in the signature, and for each of
/// these numbers the place of the first cell; at the end, how many cells there are.
#[derive(Drop)]
pub(crate) struct Layout {
    pub size: u32,
    pub numbers: Vec<u32>,
    pub firsts: Vec<u32>,
}

/// The places of the first cells, and at the end how many cells there are. None exactly where there are more than 65,536.
fn firsts_of(
    alloc: Global,
    symbols: &Symbols,
    size: u32,
    signature: &[Sym],
) -> Result<Option<Vec<u32>>, AllocError>
    requires some { 1 ≤ size }
    requires has { HasAll symbols.now signature.now }
    ensures { IfOk result (λ r. MatchOption r (MOST_CELLS < cells_for symbols.now size signature.now) (λ firsts. AreFirsts symbols.now size signature.now firsts.items × (cells_for symbols.now size signature.now ≤ MOST_CELLS))) }
{
    let mut firsts = Vec::new(alloc);
    let mut cells: u32 = 0;
    firsts.push(cells)?;
    for f in signature {
        let Some(count) = lists_of(size, symbols.arity(*f) as usize) else {
            return Ok(None);
        };
        cells += count;
        if cells as usize > MAX_CELLS {
            return Ok(None);
        }
        firsts.push(cells)?;
    }
    Ok(Some(firsts))
}

/// Lays out the cells. None comes exactly where there are more than 65,536.
pub(crate) fn lay_out(
    alloc: Global,
    symbols: &Symbols,
    size: u32,
    signature: &[Sym],
) -> Result<Option<Layout>, AllocError>
    requires some { 1 ≤ size }
    requires has { HasAll symbols.now signature.now }
    requires few { length signature.now < 2 ^ 32 }
    ensures { IfOk result (λ r. MatchOption r (MOST_CELLS < cells_for symbols.now size signature.now) (λ layout. IsLaidOut symbols.now size signature.now layout)) }
{
    let Some(firsts) = firsts_of(alloc, symbols, size, signature)? else {
        return Ok(None);
    };
    let numbers = numbers_of(alloc, signature, symbols)?;
    Ok(Some(Layout {
        size,
        numbers,
        firsts,
    }))
}

impl Layout {
    /// The place of a symbol's first cell; none for a symbol that isn't of the signature.
    fn first_cell(&self, symbols: &Symbols, signature: &[Sym], f: Sym) -> Option<u32>
        requires { IsLaidOut symbols.now self.now.size signature.now self.now }
        ensures { result ≡ first_cell symbols.now self.now.size signature.now f }
    {
        let place = f.0 as usize;
        if place >= self.numbers.len() {
            return None;
        }
        let number = self.numbers[place] as usize;
        if number >= signature.len() {
            return None;
        }
        if signature[number].0 != f.0 {
            return None;
        }
        Some(self.firsts[number])
    }

    /// The step of a node.
    fn step_of(&self, symbols: &Symbols, signature: &[Sym], node: Node) -> Step
        requires laid_out { IsLaidOut symbols.now self.now.size signature.now self.now }
        requires few { self.now.size ^ node_variables node ≤ MOST_ASSIGNMENTS }
        ensures { result ≡ step_of symbols.now self.now.size signature.now node }
    {
        match node {
            Node::Var(x) => match lists_of(self.size, x as usize) {
                Some(unit) => Step::Variable(unit),
                None => Step::Foreign,
            },
            Node::App(f, arguments) => match self.first_cell(symbols, signature, f) {
                Some(first) => {
                    if symbols.arity(f) == arguments {
                        Step::Apply(first, arguments)
                    } else {
                        Step::Foreign
                    }
                }
                None => Step::Foreign,
            },
        }
    }

    /// Adds the steps of nodes, the last node first.
    fn add_steps(
        &self,
        symbols: &Symbols,
        signature: &[Sym],
        nodes: &[Node],
        steps: &mut Vec<Step>,
    ) -> Result<(), AllocError>
        requires laid_out { IsLaidOut symbols.now self.now.size signature.now self.now }
        requires few { self.now.size ^ nodes_variables nodes.now ≤ MOST_ASSIGNMENTS }
        ensures { OnOk result (steps.new.items ≡ steps.old.items ++ steps_of symbols.now self.now.size signature.now nodes.now) }
    {
        let mut at = nodes.len();
        while at > 0 {
            at -= 1;
            steps.push(self.step_of(symbols, signature, nodes[at]))?;
        }
        Ok(())
    }

    /// The form of a clause. Its left side is evaluated first.
    fn form_of(
        &self,
        alloc: Global,
        symbols: &Symbols,
        signature: &[Sym],
        clause: &Clause,
    ) -> Result<Form, AllocError>
        requires laid_out { IsLaidOut symbols.now self.now.size signature.now self.now }
        requires few { self.now.size ^ variable_count (equation_of clause.now) ≤ MOST_ASSIGNMENTS }
        ensures { IfOk result (IsFormOf symbols.now self.now.size signature.now clause.now) }
    {
        let mut steps = Vec::new(alloc);
        self.add_steps(symbols, signature, clause.left.as_nodes(), &mut steps)?;
        self.add_steps(symbols, signature, clause.right.as_nodes(), &mut steps)?;
        let assignments = lists_of(self.size, variable_count(clause)).unwrap_or(0);
        let reads = reads_of(alloc, &steps, self.size, assignments)?;
        Ok(Form {
            steps,
            reads,
            positive: clause.positive,
            assignments,
        })
    }

    /// The forms of clauses.
    pub(crate) fn forms_of(
        &self,
        alloc: Global,
        symbols: &Symbols,
        signature: &[Sym],
        clauses: &[Sourced],
    ) -> Result<Vec<Form>, AllocError>
        requires laid_out { IsLaidOut symbols.now self.now.size signature.now self.now }
        requires few { AreFewEnough self.now.size clauses.now }
        ensures { IfOk result (λ forms. AreFormsOf symbols.now self.now.size signature.now clauses.now forms.items) }
    {
        let mut forms = Vec::new(alloc);
        for sourced in clauses {
            forms.push(self.form_of(alloc, symbols, signature, &sourced.clause)?)?;
        }
        Ok(forms)
    }
}
