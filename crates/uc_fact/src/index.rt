//! Indexes of facts: which sides of live facts a term is an instance of.

ghost use Rattle.std.specs.Prelude.{◌≡◌, ◌↔◌, IsTrue, IfOk};

use std::alloc::{AllocError, Global};
use uc_term::{MAX_NODES, Node, Seq, Side, Subst, Term};

/// A side of a live fact of which a term is an instance, by the fact's number, and the substitution that makes it the term:
/// its pairs are those of the side's variables, by first occurrence.
#[derive(Drop)]
pub struct Found {
    pub fact: u32,
    pub side: Side,
    pub subst: Subst,
}

/// What is foreseen of all that may be found at a side of a fact: that it passes a test, that it fails, or neither.
#[derive(Clone, Copy, PartialEq, Eq)]
pub enum Outlook {
    Passes,
    Fails,
    Unclear,
}

/// A test of what is found for a term. It is told the side of the fact of which the term is an instance, and the other side,
/// so that it needn't look for them.
pub trait Test {
    ghost use Rattle.std.specs.Prelude.{◌≡◌, ◌↔◌, IsTrue, IfOk};
    ghost use Rattle.uc_term.specs.Tree.{Tree};
    ghost use Rattle.uc_fact.specs.declared.index.Found.{Found};
    ghost use Rattle.uc_fact.specs.Embedding.{Embedded};

    /// What the test may be asked of, with the two sides.
    ghost can_test: { Self → Found → Tree → Tree → Type 0 };

    /// What it accepts.
    ghost accepts: { Self → Found → Type 0 };

    /// Tells that all, or that nothing, is accepted that is found at this side of this fact, as far as that is seen without the
    /// substitution; `Unclear` says nothing. It takes no memory.
    fn outlook(&self, fact: u32, side: Side, from: &Term, to: &Term) -> Outlook
        ensures passes { result ≡ Outlook.Passes → (found : Found) → can_test self.now found from.now to.now → found.fact ≡ fact → found.side ≡ side → accepts self.now found }
        ensures fails { result ≡ Outlook.Fails → (found : Found) → can_test self.now found from.now to.now → found.fact ≡ fact → found.side ≡ side → accepts self.now found → ⊥ };

    /// Tells that nothing is accepted that is found at a side that is embedded in the other side, so that an index that knows
    /// these sides may pass over them; false says nothing. It takes no memory.
    fn refuses_embedded(&self) -> bool
        ensures { IsTrue result → (found : Found) → (from to : Tree) → can_test self.now found from to → Embedded from to → accepts self.now found → ⊥ }
    {
        false
    }

    /// Whether the test accepts what was found. The space is memory that it may use; what stands in it is arbitrary.
    fn passes(
        &self,
        alloc: Global,
        found: &Found,
        from: &Term,
        to: &Term,
        space: &mut Vec<Node>,
    ) -> Result<bool, AllocError>
        requires { can_test self.now found.now from.now to.now }
        ensures { IfOk result (λ passes. IsTrue passes ↔ accepts self.now found.now) };
}

/// Whether a test accepts what was found at a side of a fact, of which the outlook is this one. The test is asked only where
/// that is unclear; the space is lent to it.
pub fn passes_by<T: Test>(
    alloc: Global,
    test: &T,
    outlook: Outlook,
    found: &Found,
    from: &Term,
    to: &Term,
    space: &mut Vec<Node>,
) -> Result<bool, AllocError>
    requires can { T.can_test test.now found.now from.now to.now }
    requires passes { outlook ≡ Outlook.Passes → T.accepts test.now found.now }
    requires fails { outlook ≡ Outlook.Fails → T.accepts test.now found.now → ⊥ }
    ensures { IfOk result (λ passes. IsTrue passes ↔ T.accepts test.now found.now) }
{
    match outlook {
        Outlook::Passes => Ok(true),
        Outlook::Fails => Ok(false),
        Outlook::Unclear => test.passes(alloc, found, from, to, space),
    }
}

/// An index of facts. Its answers are a function of the facts that live in it, each with its number.
pub trait Index {
    ghost use Rattle.std.specs.Prelude.{◌≡◌, ◌≤◌, List, length, Some, None, IfOk, OnErr, MatchOption};
    ghost use Rattle.uc_term.specs.Tree.{Tree};
    ghost use Rattle.uc_term.specs.Flat.{tree_of, IsWhole};
    ghost use Rattle.uc_fact.specs.declared.index.Found.{Found};
    ghost use Rattle.uc_fact.specs.Live.{Live, AreRising, rules_of, fact_at};
    ghost use Rattle.uc_fact.specs.Retrieval.{Generalises, FindsNothing, IsFound, FirstThat};

    /// The facts that live, by rising numbers.
    ghost live: { Self → List Live };

    /// Each side of a live fact of which the term is an instance, once, by the fact's number, left before right, with the
    /// substitution. An empty list takes no memory.
    fn generalisations(&self, alloc: Global, term: &[Node]) -> Result<Seq<Found>, AllocError>
        requires whole { IsWhole term.now }
        requires small { length term.now ≤ MAX_NODES }
        ensures value { IfOk result (Generalises (tree_of term.now) (rules_of (live self.now))) }
        ensures memory { OnErr result (FindsNothing (tree_of term.now) (rules_of (live self.now)) → ⊥) };

    /// The first of `generalisations` that passes a test, for which the list needn't be built. None exactly where none
    /// passes. Where the list is empty, this takes no memory.
    fn first_that<T: Test>(
        &self,
        alloc: Global,
        term: &[Node],
        test: &T,
    ) -> Result<Option<Found>, AllocError>
        requires whole { IsWhole term.now }
        requires small { length term.now ≤ MAX_NODES }
        requires can { (found : Found) (from to : Tree) → IsFound (tree_of term.now) (rules_of (live self.now)) found from to → T.can_test test.now found from to }
        ensures value { IfOk result (FirstThat (T.accepts test.now) (tree_of term.now) (rules_of (live self.now))) }
        ensures memory { OnErr result (FindsNothing (tree_of term.now) (rules_of (live self.now)) → ⊥) };

    /// The two sides of a live fact. None exactly where no live fact has this number. It takes no memory.
    fn pair(&self, fact: u32) -> Option<(&Term, &Term)>
        ensures { MatchOption result (fact_at (live self.now) fact ≡ None) (λ sides. fact_at (live self.now) fact ≡ Some (record { left = sides.0.now; right = sides.1.now })) };

    ghost rising: { (i : Self) → AreRising (live i) };
}
