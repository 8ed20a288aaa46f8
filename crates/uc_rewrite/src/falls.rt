//! Whether a step is possible.

ghost use Rattle.std.specs.Prelude.{◌≡◌, ◌≤◌, length, MatchOption, None};
ghost use Rattle.uc_term.specs.Flat.{tree_of, IsWhole};
ghost use Rattle.uc_fact.specs.Live.{rules_of, fact_at};
ghost use Rattle.uc_fact.specs.Retrieval.{IsFound};
ghost use Rattle.uc_rewrite.specs.Comparing.{VariablesAre};
ghost use Rattle.uc_rewrite.specs.Completed.{AreSides, LeadsDown};

use crate::comparison::{Comparison, Falling};
use crate::completed::fill_completed;
use std::alloc::{AllocError, Global};
use uc_fact::{Found, Index, Outlook, Side, Test};
use uc_term::{MAX_NODES, Node, Term};

/// The facts of an index, and a comparison by which they are used.
#[derive(Drop)]
pub struct Rules<'a, C, I> {
    pub index: &'a I,
    pub comparison: &'a C,
}

/// The test whether the step from a term by what is found for it is possible: whether it leads to a smaller term.
#[derive(Drop)]
pub struct Falls<'a, C, I> {
    pub rules: &'a Rules<'a, C, I>,
    pub term: &'a [Node],
}

impl<'a, C: Comparison, I: Index> Test for Falls<'a, C, I> {
    ghost can_test = { λ s found from to. IsWhole s.term.now × (length s.term.now ≤ 4096) × VariablesAre (C.knows s.rules.now.comparison.now) (tree_of s.term.now) × IsFound (tree_of s.term.now) (rules_of (I.live s.rules.now.index.now)) found from to };

    ghost accepts = { λ s found. LeadsDown (C.greater s.rules.now.comparison.now) (C.constant s.rules.now.comparison.now) (I.live s.rules.now.index.now) (tree_of s.term.now) found };

    fn outlook(&self, fact: u32, side: Side, from: &Term, to: &Term) -> Outlook {
        match self.rules.comparison.of_sides(fact, side, from, to) {
            Falling::Always => Outlook::Passes,
            Falling::Never => Outlook::Fails,
            Falling::Unclear => Outlook::Unclear,
        }
    }

    // No instance of what is embedded is greater than that of the other side.
    fn refuses_embedded(&self) -> bool {
        true
    }

    fn passes(
        &self,
        alloc: Global,
        found: &Found,
        from: &Term,
        to: &Term,
        space: &mut Vec<Node>,
    ) -> Result<bool, AllocError> {
        let least = self.rules.comparison.least();
        fill_completed(space, to.as_nodes(), &found.subst, least)?;
        let comparison = self.rules.comparison;
        Ok(comparison.is_greater(self.term, space.as_slice()))
    }
}

/// The side of which a term was found to be an instance, and the other side.
pub fn sides<'a, I: Index>(index: &'a I, found: &Found) -> Option<(&'a Term, &'a Term)>
    ensures { MatchOption result (fact_at (I.live index.now) found.now.fact ≡ None) (λ sides. AreSides (I.live index.now) found.now sides.0.now sides.1.now) }
{
    let (left, right) = index.pair(found.fact)?;
    match found.side {
        Side::Left => Some((left, right)),
        Side::Right => Some((right, left)),
    }
}
