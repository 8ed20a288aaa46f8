//! Laws over the definitions, the contract of a function that does nothing.

ghost use Rattle.std.specs.Prelude.{◌≡◌, ◌≤◌, ℕ, List};
ghost use Rattle.uc_term.specs.declared.equation.Equation.{Equation};
ghost use Rattle.uc_term.specs.Tree.{Tree};
ghost use Rattle.uc_term.specs.Table.{Table, IsDistinct};
ghost use Rattle.uc_term.specs.Conversion.{Conv};
ghost use Rattle.uc_problem.specs.declared.problem.Problem.{Problem};
ghost use Rattle.uc_order.specs.Members.{In};
ghost use Rattle.uc_order.specs.Laws.{IsGroundOf};
ghost use Rattle.uc_decide.specs.Deciding.{Decides};
ghost use Rattle.uc_gen.specs.Generated.{IsGenerated};
ghost use Rattle.uc_gen.specs.Counting.{HasClasses, HasForms};

use uc_order::Order;

/// In a table whose entries are all different, one problem is generated for a number of constants and a start.
pub fn one_generated()
    ensures { (table : Table) (n start : ℕ) (a b : Problem) → IsDistinct table → IsGenerated table n start a → IsGenerated table n start b → a ≡ b }
{}

/// Ground terms have as many different normal forms by equations that decide what follows from axioms as they fall into classes by what
/// the axioms make equal.
pub fn forms_are_classes<O: Order>(order: &O)
    ensures { (es axioms : List Equation) (terms : List Tree) (count : ℕ) → Decides (O.meaning order.now) es axioms → ((t : Tree) → In terms t → IsGroundOf (O.meaning order.now) t) → HasForms (O.meaning order.now) es terms count → HasClasses (Conv axioms) terms count }
{}

/// Terms fall into one number of classes by what axioms make equal, and have one number of different normal forms by equations.
pub fn one_count<O: Order>(order: &O)
    ensures classes { (axioms : List Equation) (terms : List Tree) (m n : ℕ) → HasClasses (Conv axioms) terms m → HasClasses (Conv axioms) terms n → m ≡ n }
    ensures forms { (es : List Equation) (terms : List Tree) (m n : ℕ) → HasForms (O.meaning order.now) es terms m → HasForms (O.meaning order.now) es terms n → m ≡ n }
{}
