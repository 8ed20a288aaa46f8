//! A walk over a term in postorder that looks for its first possible step. After a step it goes on at the new subterm, since
//! what it has left behind outside of that stays irreducible; and in the new subterm it passes over the values of the rule's
//! variables, which it has left behind before.

ghost use Rattle.std.specs.Prelude.{◌≡◌, ◌↔◌, ◌+◌, ◌-◌, ◌*◌, ◌<◌, ◌≤◌, ◌++◌, ◌∷◌, [], false, length, take, drop, get_or, IfOk, IfSome, OnOk, MatchOption, IsTrue};
ghost use Rattle.uc_term.specs.Tree.{nodes};
ghost use Rattle.uc_term.specs.Flat.{flat, tree_of, IsWhole};
ghost use Rattle.uc_term.specs.Variables.{IsApp};
ghost use Rattle.uc_term.specs.declared.node.Node.TheVariants.{Var};
ghost use Rattle.uc_fact.specs.Live.{rules_of, equations_of};
ghost use Rattle.uc_fact.specs.Retrieval.{FirstThat};
ghost use Rattle.uc_fact.specs.Ordered.{IsIrreducible};
ghost use Rattle.uc_rewrite.specs.Normalising.{is_left};
ghost use Rattle.uc_rewrite.specs.Comparing.{VariablesAre};
ghost use Rattle.uc_rewrite.specs.Completed.{LeadsDown};
ghost use Rattle.uc_rewrite.specs.Walking.{arguments_of, Walks, Advances, Stops, Steps, IsLarge, AreKept, IsKeptPart, IsKeptValue, Keeps, GoesIn, GoesOn};

use crate::comparison::Comparison;
use crate::completed::completed_instance;
use crate::falls::{Falls, Rules, sides};
use std::alloc::{AllocError, Global};
use uc_fact::{By, Found, Index, Side, Step};
use uc_term::{MAX_NODES, Node, Pos, Subst, Term, same_nodes};

/// A subterm that is gone through: its place, and how many of its arguments are still to come.
#[derive(Clone, Copy)]
pub struct Open {
    place: usize,
    pending: u32,
}

/// A subterm from which a step is possible: its place, the place behind it, and by what the first one is.
#[derive(Drop)]
pub struct Redex {
    from: usize,
    to: usize,
    found: Found,
}

/// Where a value stands that the walk may pass over: how many nodes there are from its first one to the term's end, which a
/// step before it doesn't change; the number of the substitution that has it, and the variable.
#[derive(Clone, Copy)]
struct Note {
    behind: usize,
    number: usize,
    variable: u32,
}

/// A walk over a term in postorder: the subterms that it goes through, from the whole term inwards, and the place that comes
/// next in prefix order; the substitutions of its steps that notes may name, whose terms are irreducible; and the notes where
/// these stand, the next one last.
#[derive(Drop)]
pub struct Walk {
    opened: Vec<Open>,
    place: usize,
    kept: Vec<Subst>,
    notes: Vec<Note>,
}

impl Walk {
    /// A walk at the beginning of a term.
    pub fn new<C: Comparison, I: Index>(
        alloc: Global,
        list: &[Node],
        rules: &Rules<C, I>,
    ) -> Result<Walk, AllocError>
        requires whole { IsWhole list.now }
        ensures walks { IfOk result (λ walk. Walks (C.greater rules.now.comparison.now) (C.constant rules.now.comparison.now) (I.live rules.now.index.now) (tree_of list.now) walk.opened.items walk.place) }
        ensures kept { IfOk result (λ walk. AreKept (C.greater rules.now.comparison.now) (C.constant rules.now.comparison.now) (I.live rules.now.index.now) walk.kept.items) }
    {
        let mut walk = Walk {
            opened: Vec::new(alloc),
            place: 0,
            kept: Vec::new(alloc),
            notes: Vec::new(alloc),
        };
        walk.enter(list)?;
        Ok(walk)
    }

    /// Enters the subterm at the next place.
    fn enter(&mut self, list: &[Node]) -> Result<(), AllocError>
        requires within { self.old.place < length list.now }
        ensures opened { OnOk result (self.new.opened.items ≡ self.old.opened.items ++ record { place = self.old.place; pending = arguments_of (get_or list.now self.old.place (Var 0)) } ∷ []) }
        ensures place { OnOk result (self.new.place ≡ self.old.place + 1) }
        ensures kept { self.new.kept.items ≡ self.old.kept.items }
    {
        let pending = match list[self.place] {
            Node::Var(_) => 0,
            Node::App(_, arity) => arity,
        };
        self.opened.push(Open {
            place: self.place,
            pending,
        })?;
        self.place += 1;
        Ok(())
    }

    /// Goes on to the first subterm from which a step is possible. None exactly where there is none, so that the term is
    /// irreducible.
    pub fn next<C: Comparison, I: Index>(
        &mut self,
        alloc: Global,
        list: &[Node],
        rules: &Rules<C, I>,
    ) -> Result<Option<Redex>, AllocError>
        requires whole { IsWhole list.now }
        requires small { length list.now ≤ MAX_NODES }
        requires known { VariablesAre (C.knows rules.now.comparison.now) (tree_of list.now) }
        requires walks { Walks (C.greater rules.now.comparison.now) (C.constant rules.now.comparison.now) (I.live rules.now.index.now) (tree_of list.now) self.old.opened.items self.old.place }
        requires kept { AreKept (C.greater rules.now.comparison.now) (C.constant rules.now.comparison.now) (I.live rules.now.index.now) self.old.kept.items }
        ensures kept { self.new.kept.items ≡ self.old.kept.items }
        ensures redex { IfOk result (λ redex. MatchOption redex (IsIrreducible (C.greater rules.now.comparison.now) (C.constant rules.now.comparison.now) (equations_of (I.live rules.now.index.now)) (tree_of list.now)) (Stops (C.greater rules.now.comparison.now) (C.constant rules.now.comparison.now) (I.live rules.now.index.now) (tree_of list.now) self.new.opened.items)) }
    {
        while let Some(top) = self.opened.pop() {
            if let Some(redex) = self.advance(alloc, list, rules, top)? {
                return Ok(Some(redex));
            }
        }
        Ok(None)
    }

    /// Goes on to the next argument of the innermost subterm; or leaves that subterm behind, where it has no further one and no
    /// step from it is possible.
    fn advance<C: Comparison, I: Index>(
        &mut self,
        alloc: Global,
        list: &[Node],
        rules: &Rules<C, I>,
        top: Open,
    ) -> Result<Option<Redex>, AllocError>
        requires whole { IsWhole list.now }
        requires small { length list.now ≤ MAX_NODES }
        requires known { VariablesAre (C.knows rules.now.comparison.now) (tree_of list.now) }
        requires walks { Walks (C.greater rules.now.comparison.now) (C.constant rules.now.comparison.now) (I.live rules.now.index.now) (tree_of list.now) (self.old.opened.items ++ top ∷ []) self.old.place }
        requires kept { AreKept (C.greater rules.now.comparison.now) (C.constant rules.now.comparison.now) (I.live rules.now.index.now) self.old.kept.items }
        ensures kept { self.new.kept.items ≡ self.old.kept.items }
        ensures redex { IfOk result (λ redex. MatchOption redex (Advances (C.greater rules.now.comparison.now) (C.constant rules.now.comparison.now) (I.live rules.now.index.now) list.now self.old.opened.items self.old.place self.new.opened.items self.new.place) (Stops (C.greater rules.now.comparison.now) (C.constant rules.now.comparison.now) (I.live rules.now.index.now) (tree_of list.now) self.new.opened.items)) }
    {
        if top.pending > 0 {
            self.go_on(list, top)?;
            Ok(None)
        } else {
            self.leave(alloc, list, rules, top)
        }
    }

    /// Enters the next argument of the innermost subterm, or passes over it, where it is a value that is kept.
    fn go_on(&mut self, list: &[Node], top: Open) -> Result<(), AllocError>
        requires some { 0 < top.pending }
        requires within { self.old.place < length list.now }
        requires small { length list.now ≤ MAX_NODES }
        ensures kept { self.new.kept.items ≡ self.old.kept.items }
        ensures moves { OnOk result (GoesOn self.old.kept.items list.now top self.old.opened.items self.old.place self.new.opened.items self.new.place) }
    {
        match self.kept_end(list) {
            Some(end) => self.pass(top, end),
            None => self.descend(list, top),
        }
    }

    /// Finds where the next argument ends, if it is noted to be a value that is kept. The nodes themselves are compared.
    fn kept_end(&mut self, list: &[Node]) -> Option<usize>
        requires within { self.old.place < length list.now }
        requires small { length list.now ≤ MAX_NODES }
        ensures opened { self.new.opened.items ≡ self.old.opened.items }
        ensures place { self.new.place ≡ self.old.place }
        ensures kept { self.new.kept.items ≡ self.old.kept.items }
        ensures end { IfSome result (IsKeptPart self.old.kept.items list.now self.old.place) }
    {
        let note = *self.notes.last()?;
        if list.len() - self.place != note.behind {
            return None;
        }
        let _ = self.notes.pop();
        let value = self.kept.get(note.number)?.get(note.variable)?;
        end_of_same(list, self.place, value)
    }

    /// Passes over the next argument of the innermost subterm, which ends at a place.
    fn pass(&mut self, top: Open, end: usize) -> Result<(), AllocError>
        requires some { 0 < top.pending }
        ensures opened { OnOk result (self.new.opened.items ≡ self.old.opened.items ++ record { place = top.place; pending = top.pending - 1 } ∷ []) }
        ensures place { OnOk result (self.new.place ≡ end) }
        ensures kept { self.new.kept.items ≡ self.old.kept.items }
    {
        self.opened.push(Open {
            place: top.place,
            pending: top.pending - 1,
        })?;
        self.place = end;
        Ok(())
    }

    /// Enters the next argument of the innermost subterm.
    fn descend(&mut self, list: &[Node], top: Open) -> Result<(), AllocError>
        requires some { 0 < top.pending }
        requires within { self.old.place < length list.now }
        ensures opened { OnOk result (self.new.opened.items ≡ (self.old.opened.items ++ record { place = top.place; pending = top.pending - 1 } ∷ []) ++ record { place = self.old.place; pending = arguments_of (get_or list.now self.old.place (Var 0)) } ∷ []) }
        ensures place { OnOk result (self.new.place ≡ self.old.place + 1) }
        ensures kept { self.new.kept.items ≡ self.old.kept.items }
    {
        self.opened.push(Open {
            place: top.place,
            pending: top.pending - 1,
        })?;
        self.enter(list)
    }

    /// Leaves the innermost subterm behind, where no step from it is possible.
    fn leave<C: Comparison, I: Index>(
        &self,
        alloc: Global,
        list: &[Node],
        rules: &Rules<C, I>,
        top: Open,
    ) -> Result<Option<Redex>, AllocError>
        requires whole { IsWhole list.now }
        requires small { length list.now ≤ MAX_NODES }
        requires known { VariablesAre (C.knows rules.now.comparison.now) (tree_of list.now) }
        requires none { top.pending ≡ 0 }
        requires walks { Walks (C.greater rules.now.comparison.now) (C.constant rules.now.comparison.now) (I.live rules.now.index.now) (tree_of list.now) (self.now.opened.items ++ top ∷ []) self.now.place }
        ensures { IfOk result (λ redex. MatchOption redex (Walks (C.greater rules.now.comparison.now) (C.constant rules.now.comparison.now) (I.live rules.now.index.now) (tree_of list.now) self.now.opened.items self.now.place) (Stops (C.greater rules.now.comparison.now) (C.constant rules.now.comparison.now) (I.live rules.now.index.now) (tree_of list.now) self.now.opened.items)) }
    {
        let term = part(list, top.place, self.place);
        match first_possible(alloc, term, rules)? {
            Some(found) => Ok(Some(Redex {
                from: top.place,
                to: self.place,
                found,
            })),
            None => Ok(None),
        }
    }

    /// The step from the subterm at which the walk stopped; the walk then stands at the beginning of the new subterm. None
    /// exactly where the step leads to a term of more than 4,096 nodes.
    pub fn step<C: Comparison, I: Index>(
        &mut self,
        alloc: Global,
        list: &[Node],
        rules: &Rules<C, I>,
        redex: Redex,
    ) -> Result<Option<Step>, AllocError>
        requires whole { IsWhole list.now }
        requires small { length list.now ≤ MAX_NODES }
        requires stops { Stops (C.greater rules.now.comparison.now) (C.constant rules.now.comparison.now) (I.live rules.now.index.now) (tree_of list.now) self.old.opened.items redex }
        requires kept { AreKept (C.greater rules.now.comparison.now) (C.constant rules.now.comparison.now) (I.live rules.now.index.now) self.old.kept.items }
        ensures kept { OnOk result (AreKept (C.greater rules.now.comparison.now) (C.constant rules.now.comparison.now) (I.live rules.now.index.now) self.new.kept.items) }
        ensures step { IfOk result (λ step. MatchOption step (IsLarge (C.greater rules.now.comparison.now) (C.constant rules.now.comparison.now) (I.live rules.now.index.now) (tree_of list.now)) (λ step. Steps (C.greater rules.now.comparison.now) (C.constant rules.now.comparison.now) (I.live rules.now.index.now) (tree_of list.now) step self.new.opened.items self.new.place)) }
    {
        let Some((from, to)) = sides(rules.index, &redex.found) else {
            unreachable!()
        };
        let least = rules.comparison.least();
        let part = completed_instance(alloc, to.as_nodes(), &redex.found.subst, least)?;
        if list.len() - (redex.to - redex.from) + part.len() > MAX_NODES {
            return Ok(None);
        }
        let new = replaced(alloc, list, redex.from, redex.to, part.as_slice())?;
        let end = redex.from + part.len();
        self.place = redex.from;
        let step = Step {
            by: By::Fact(redex.found.fact),
            left_to_right: is_left(redex.found.side),
            position: Pos(redex.from as u32),
            to: new,
        };
        self.go_in(step.to.as_nodes(), from, to, redex.found.subst, end)?;
        Ok(Some(step))
    }

    /// Enters the new subterm of a step, which ends at a place; or leaves it behind, where it is the value of a variable.
    fn go_in(
        &mut self,
        list: &[Node],
        from: &Term,
        to: &Term,
        subst: Subst,
        end: usize,
    ) -> Result<(), AllocError>
        requires within { self.old.place < length list.now }
        requires end { end ≤ length list.now }
        ensures { OnOk result (GoesIn from.now to.now subst list.now end self.old.opened.items self.old.place self.old.kept.items self.new.opened.items self.new.place self.new.kept.items) }
    {
        if is_kept_value(from, to, &subst) {
            self.place = end;
            return Ok(());
        }
        self.enter(list)?;
        self.keep(from, to, subst, list.len() - end)
    }

    /// Keeps the substitution of a step, unless its terms may be reducible, since the side that was found is a variable; and
    /// notes where its terms stand in the instance of the other side, behind which there are so many nodes. Those that no note
    /// names any more are dropped before.
    fn keep(
        &mut self,
        from: &Term,
        to: &Term,
        subst: Subst,
        behind: usize,
    ) -> Result<(), AllocError>
        ensures opened { self.new.opened.items ≡ self.old.opened.items }
        ensures place { self.new.place ≡ self.old.place }
        ensures kept { OnOk result (Keeps from.now subst self.old.kept.items self.new.kept.items) }
    {
        if is_variable(from) {
            return Ok(());
        }
        self.kept.truncate(count_noted(self.notes.as_slice()));
        note_values(
            &mut self.notes,
            to.as_nodes(),
            &subst,
            self.kept.len(),
            behind,
        )?;
        self.kept.push(subst)?;
        Ok(())
    }
}

/// Whether the side that was found is no variable, and the other one is one that has a term: then this term is irreducible.
fn is_kept_value(from: &Term, to: &Term, subst: &Subst) -> bool
    ensures { IsTrue result → IsKeptValue from.now to.now subst.now }
{
    if is_variable(from) {
        return false;
    }
    match to.as_nodes()[0] {
        Node::Var(x) => subst.get(x).is_some(),
        Node::App(_, _) => false,
    }
}

/// Counts the substitutions that notes may name: those of later steps are noted later, and none behind that of the last note.
fn count_noted(notes: &[Note]) -> usize {
    match notes.last() {
        Some(note) => note.number.saturating_add(1),
        None => 0,
    }
}

/// Notes where the terms of a substitution stand in the instance of a side, behind which there are so many nodes: from the last
/// one to the first one.
fn note_values(
    notes: &mut Vec<Note>,
    side: &[Node],
    subst: &Subst,
    number: usize,
    behind: usize,
) -> Result<(), AllocError> {
    let mut behind = behind;
    for node in side.iter().rev() {
        behind = note_value(notes, *node, subst, number, behind)?;
    }
    Ok(())
}

/// Notes where the term of a variable stands, if the node is one and has a term. Returns how many nodes there are from the
/// node's first one to the end.
fn note_value(
    notes: &mut Vec<Note>,
    node: Node,
    subst: &Subst,
    number: usize,
    behind: usize,
) -> Result<usize, AllocError> {
    let Node::Var(variable) = node else {
        return Ok(behind.saturating_add(1));
    };
    let Some(value) = subst.get(variable) else {
        return Ok(behind.saturating_add(1));
    };
    let behind = behind.saturating_add(value.len());
    notes.push(Note {
        behind,
        number,
        variable,
    })?;
    Ok(behind)
}

/// Finds where a term ends that stands at a place, if it does. The nodes are compared.
fn end_of_same(list: &[Node], place: usize, term: &[Node]) -> Option<usize>
    requires within { place < length list.now }
    requires small { length list.now ≤ MAX_NODES }
    requires whole { IsWhole term.now }
    requires short { length term.now ≤ MAX_NODES }
    ensures { IfSome result (λ end. (end ≡ place + nodes (tree_of term.now)) × (take (end - place) (drop place list.now) ≡ flat (tree_of term.now))) }
{
    let end = place + term.len();
    if end > list.len() {
        return None;
    }
    if same_nodes(&list[place..end], term) {
        Some(end)
    } else {
        None
    }
}

/// Whether a term is a variable.
fn is_variable(term: &Term) -> bool
    ensures { (result ≡ false) ↔ IsApp term.now }
{
    match term.as_nodes()[0] {
        Node::Var(_) => true,
        Node::App(_, _) => false,
    }
}

/// Whether a side is the left one.
fn is_left(side: Side) -> bool
    ensures { result ≡ is_left side }
{
    match side {
        Side::Left => true,
        Side::Right => false,
    }
}

/// The nodes between two places.
fn part(list: &[Node], from: usize, to: usize) -> &[Node]
    requires order { from ≤ to }
    requires within { to ≤ length list.now }
    ensures { result.now ≡ take (to - from) (drop from list.now) }
{
    &list[from..to]
}

/// The first by which a step from the term is possible.
fn first_possible<C: Comparison, I: Index>(
    alloc: Global,
    term: &[Node],
    rules: &Rules<C, I>,
) -> Result<Option<Found>, AllocError>
    requires whole { IsWhole term.now }
    requires small { length term.now ≤ MAX_NODES }
    requires known { VariablesAre (C.knows rules.now.comparison.now) (tree_of term.now) }
    ensures { IfOk result (FirstThat (LeadsDown (C.greater rules.now.comparison.now) (C.constant rules.now.comparison.now) (I.live rules.now.index.now) (tree_of term.now)) (tree_of term.now) (rules_of (I.live rules.now.index.now))) }
{
    rules.index.first_that(alloc, term, &Falls { rules, term })
}

/// The term with the nodes between two places replaced.
fn replaced(
    alloc: Global,
    list: &[Node],
    from: usize,
    to: usize,
    part: &[Node],
) -> Result<Term, AllocError>
    requires order { from ≤ to }
    requires within { to ≤ length list.now }
    requires whole { IsWhole (take from list.now ++ part.now ++ drop to list.now) }
    requires small { length (take from list.now ++ part.now ++ drop to list.now) ≤ MAX_NODES }
    ensures { IfOk result (λ term. term ≡ tree_of (take from list.now ++ part.now ++ drop to list.now)) }
{
    let mut all = Vec::new(alloc);
    all.extend_from_slice(&list[..from])?;
    all.extend_from_slice(part)?;
    all.extend_from_slice(&list[to..])?;
    Ok(Term::from_nodes(all))
}
