//! Laws over the definitions, each the contract of a function that does nothing.

ghost use Rattle.std.specs.Prelude.{◌≡◌, ◌≤◌, ℕ, List};
ghost use Rattle.uc_term.specs.declared.node.Sym.{Sym};
ghost use Rattle.uc_term.specs.declared.equation.Equation.{Equation};
ghost use Rattle.uc_term.specs.Table.{Table as SymbolTable};
ghost use Rattle.uc_term.specs.Conversion.{Follows};
ghost use Rattle.uc_clause.specs.declared.clause.Sourced.{Sourced};
ghost use Rattle.uc_table.specs.declared.table.Table.{Table as AnyTable};
ghost use Rattle.uc_table.specs.declared.answers.Tabled.{Tabled as AnyTabled};
ghost use Rattle.uc_table.specs.declared.answers.Searched.{Searched as AnySearched};
ghost use Rattle.uc_table.specs.Checks.{Checks};
ghost use Rattle.uc_table.specs.Tables.{IsTableOf};
ghost use Rattle.uc_table.specs.Models.{SatisfiesAll, KeepsApart};
ghost use Rattle.uc_table.specs.Searching.{Searches};

/// A goal whose sides a table keeps apart under every assignment doesn't follow from equations that the table satisfies
/// (Birkhoff's soundness of replacement of equals). The terms of a conversion may have any symbols, also with any number of
/// arguments: where the table has no cell, the value is 0.
pub fn model_refutes()
    ensures { (symbols : SymbolTable) (signature : List Sym) (table : AnyTable) (axioms : List Equation) (goal : Equation) → IsTableOf symbols signature table → SatisfiesAll table axioms → KeepsApart table goal → Follows axioms goal → ⊥ }
{}

/// A table with a value is one thing to the clauses of a problem. So each contract that names this says exactly where each answer
/// comes.
pub fn one_verdict()
    ensures { (table : AnyTable) (clauses : List Sourced) (a b : AnyTabled) → 1 ≤ table.size → Checks table clauses a → Checks table clauses b → a ≡ b }
{}

/// A search up to a size comes to one answer: so each contract that names this says exactly where each answer comes.
pub fn one_search()
    ensures { (symbols : SymbolTable) (signature : List Sym) (clauses : List Sourced) (budget size : ℕ) (a b : AnySearched) → Searches symbols signature clauses budget size a → Searches symbols signature clauses budget size b → a ≡ b }
{}
