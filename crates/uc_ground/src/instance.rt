//! Whether two terms are the two sides of one instance of a fact.

ghost use Rattle.std.specs.Prelude.{◌≡◌, IfOk, MatchOption};
ghost use Rattle.uc_term.specs.Equations.{side_of, other_side_of};
ghost use Rattle.uc_fact.specs.Live.{fact_at};
ghost use Rattle.uc_ground.specs.Joining.{IsLeastInstance, IsNoInstance};
ghost use Rattle.uc_ground.specs.Sides.{AreSides};

use std::alloc::{AllocError, Global};
use uc_fact::{Found, Index, Outlook, Side, Test, heads_differ};
use uc_term::{Node, Term};
use uc_unify::matches_both;

/// The least fact of which two terms are, either way round, the two sides of one instance. None exactly where there is none.
pub fn least_instance<I: Index>(
    alloc: Global,
    s: &Term,
    t: &Term,
    index: &I,
) -> Result<Option<u32>, AllocError>
    ensures { IfOk result (λ fact. MatchOption fact (IsNoInstance (I.live index.now) s.now t.now) (IsLeastInstance (I.live index.now) s.now t.now)) }
{
    let test = OneInstance {
        index,
        left: s,
        right: t,
    };
    match index.first_that(alloc, s.as_nodes(), &test)? {
        Some(found) => Ok(Some(found.fact)),
        None => Ok(None),
    }
}

/// The test whether two terms are the two sides of one instance of the fact that was found, the first one of the side that
/// was found.
#[derive(Drop)]
pub struct OneInstance<'a, I> {
    pub index: &'a I,
    pub left: &'a Term,
    pub right: &'a Term,
}

impl<'a, I: Index> Test for OneInstance<'a, I> {
    ghost use Rattle.uc_ground.specs.Joining.{IsInstanceFrom};

    ghost can_test = { λ s found from to. Unit {0} };

    ghost accepts = { λ s found. IsInstanceFrom (I.live s.index.now) s.left.now s.right.now found.fact found.side };

    fn outlook(&self, fact: u32, side: Side, _from: &Term, _to: &Term) -> Outlook {
        match sides(self.index, fact, side) {
            Some((_, to)) => {
                if heads_differ(to.as_nodes(), self.right.as_nodes()) {
                    Outlook::Fails
                } else {
                    Outlook::Unclear
                }
            }
            None => Outlook::Unclear,
        }
    }

    fn passes(
        &self,
        alloc: Global,
        found: &Found,
        _from: &Term,
        _to: &Term,
        _space: &mut Vec<Node>,
    ) -> Result<bool, AllocError> {
        let Some((from, to)) = sides(self.index, found.fact, found.side) else {
            return Ok(false);
        };
        let both = matches_both(
            alloc,
            from.as_nodes(),
            self.left.as_nodes(),
            to.as_nodes(),
            self.right.as_nodes(),
        )?;
        Ok(both.is_some())
    }
}

/// A side of a live fact, and the other one. None exactly where no live fact has this number. It takes no memory.
fn sides<I: Index>(index: &I, fact: u32, side: Side) -> Option<(&Term, &Term)>
    ensures { MatchOption result (fact_at (I.live index.now) fact ≡ None) (λ sides. AreSides (I.live index.now) fact side sides.0.now sides.1.now) }
{
    let (left, right) = index.pair(fact)?;
    match side {
        Side::Left => Some((left, right)),
        Side::Right => Some((right, left)),
    }
}
