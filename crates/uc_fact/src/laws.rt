//! Laws over the definitions, each the contract of a function that does nothing.

ghost use Rattle.std.specs.Prelude.{List, Option, ◌≡◌};
ghost use Rattle.uc_term.specs.Tree.{Tree};
ghost use Rattle.uc_fact.specs.declared.index.Found.{Found};
ghost use Rattle.uc_fact.specs.Live.{Rule};
ghost use Rattle.uc_fact.specs.Retrieval.{Generalises, FirstThat, FirstOf};

use crate::Test;

/// What is found for a term is a function of the term and the facts that live.
pub fn one_list()
    ensures { (t : Tree) (rules : List Rule) (a b : List Found) → Generalises t rules a → Generalises t rules b → a ≡ b }
{}

/// The first that a test accepts is the first of the list that it accepts.
pub fn first_of_the_list<T: Test>(test: &T)
    ensures { (t : Tree) (rules : List Rule) (list : List Found) (answer : Option Found) → Generalises t rules list → FirstThat (T.accepts test.now) t rules answer → FirstOf (T.accepts test.now) list answer }
{}
