//! Laws over the definitions, each the contract of a function that does nothing.

ghost use Rattle.std.specs.Prelude.{◌≡◌, ℕ, List, Result, ◌↔◌};
ghost use Rattle.uc_term.specs.Tree.{Tree, apply};
ghost use Rattle.uc_term.specs.declared.node.Sym.{Sym};
ghost use Rattle.uc_term.specs.declared.equation.Equation.{Equation};
ghost use Rattle.uc_term.specs.Conversion.{Conv};
ghost use Rattle.uc_term.specs.Table.{Table, IsDistinct};
ghost use Rattle.uc_clause.specs.declared.fault.ClauseFault.{ClauseFault};
ghost use Rattle.uc_fof.specs.declared.item.FofItem.{FofItem};
ghost use Rattle.uc_fof.specs.Reading.{ReadsOrRefusesFile};
ghost use Rattle.uc_fof.specs.Interning.{InternsFile};
ghost use Rattle.uc_fof.specs.Constants.{AreApart, AreForeign, LacksThem, constant_for};

/// States that constants stand for variables. Two terms are equal by the axioms, as they stand, exactly if they are with their
/// variables replaced by constants that are all different and occur neither in the axioms nor in the terms.
pub fn constants_stand_for_variables()
    ensures { (constants : List Sym) (axioms : List Equation) (s t : Tree) → AreApart constants → AreForeign constants axioms → LacksThem constants s → LacksThem constants t → Conv axioms s t ↔ Conv axioms (apply (constant_for constants) s) (apply (constant_for constants) t) }
{}

/// States that a file with formulas has one reading. In a table whose entries are all different it is one list of items or is
/// refused for one reason at one place.
pub fn one_reading()
    ensures { (table : Table) (bytes : List ℕ) (a b : Result (List FofItem) ClauseFault) → IsDistinct table → ReadsOrRefusesFile bytes table a → ReadsOrRefusesFile bytes table b → a ≡ b }
{}

/// States that reading a file with formulas makes one table of symbols of the table before.
pub fn one_table()
    ensures { (bytes : List ℕ) (old new other : Table) → InternsFile bytes old new → InternsFile bytes old other → new ≡ other }
{}
