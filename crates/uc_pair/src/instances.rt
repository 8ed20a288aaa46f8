//! Two rules whose variables are renamed apart, and their instances by a unifier.

ghost use Rattle.std.specs.Prelude.{◌≡◌, ◌<◌, ◌≤◌, ◌∷◌, [], ℕ, length, IfOk, IsTrue, false};
ghost use Rattle.std.specs.List.{flat_map};
ghost use Rattle.uc_term.specs.Tree.{Tree, nodes, apply, put};
ghost use Rattle.uc_term.specs.Subst.{image};
ghost use Rattle.uc_term.proofs.Instances.{node_image};
ghost use Rattle.uc_pair.specs.Fitting.{IsPart};
ghost use Rattle.uc_pair.specs.Reading.{rule_read, AreApart};
ghost use Rattle.uc_pair.specs.Judging.{IsInstance, IsFilled, AreAdded, IsPut, IsReplaced};

use crate::fitting::Part;
use crate::numbering::number_in;
use crate::reading::Read;
use crate::space::Renaming;
use crate::term_ref::TermRef;
use std::alloc::{AllocError, Global};
use uc_term::{MAX_NODES, Node, Pos, Subst, Term, TermFault, instance, instance_size};

/// The sides of an outer and an inner rule, with their variables numbered by first occurrence, those of the inner one behind
/// those of the outer one.
#[derive(Drop)]
pub(crate) struct RenamedApart<'a> {
    pub(crate) outer_from: TermRef<'a>,
    pub(crate) outer_to: TermRef<'a>,
    pub(crate) inner_from: TermRef<'a>,
    pub(crate) inner_to: TermRef<'a>,
}

/// The rules' variables renamed apart, in memory that is lent.
pub(crate) fn rename_apart<'a>(
    renaming: &'a mut Renaming,
    outer: &Read,
    inner: &Read,
) -> Result<RenamedApart<'a>, AllocError>
    ensures { IfOk result (AreApart (rule_read outer.now) (rule_read inner.now)) }
{
    let Renaming {
        names,
        outer_from,
        outer_to,
        inner_from,
        inner_to,
    } = renaming;
    names.clear();
    let outer_from = number_in(outer_from, outer.from, names, 0)?;
    let outer_to = number_in(outer_to, outer.to, names, 0)?;
    let count = names.len() as u32;
    names.clear();
    let inner_from = number_in(inner_from, inner.from, names, count)?;
    let inner_to = number_in(inner_to, inner.to, names, count)?;
    Ok(RenamedApart {
        outer_from,
        outer_to,
        inner_from,
        inner_to,
    })
}

/// The term's instance. None exactly where it has more than 4,096 nodes; nothing is built then.
pub(crate) fn instance_of(
    alloc: Global,
    term: &TermRef,
    subst: &Subst,
) -> Result<Option<Term>, AllocError>
    ensures { IfOk result (IsInstance (image subst.now) term.now) }
{
    let nodes = term.as_nodes();
    if is_too_large(instance_size(nodes, subst)) {
        return Ok(None);
    }
    Ok(Some(Term::from_nodes(instance(alloc, nodes, subst)?)))
}

/// Fills a list with the nodes of the term's instance; whether this has at most 4,096 nodes.
pub(crate) fn fill_instance(
    list: &mut Vec<Node>,
    term: &TermRef,
    subst: &Subst,
) -> Result<bool, AllocError>
    ensures { IfOk result (IsFilled (apply (image subst.now) term.now) list.new.items) }
{
    list.clear();
    add_instance(list, term.as_nodes(), subst)
}

/// Fills a list with the nodes of the instance of a term with another one in place of a part; whether this has at most 4,096 nodes.
pub(crate) fn fill_put(
    list: &mut Vec<Node>,
    term: &TermRef,
    there: Part,
    part: &TermRef,
    subst: &Subst,
) -> Result<bool, AllocError>
    requires { IsPart term.now there }
    ensures { IfOk result (IsFilled (apply (image subst.now) (put term.now there.place part.now)) list.new.items) }
{
    let nodes = term.as_nodes();
    list.clear();
    if !add_instance(list, &nodes[..there.place as usize], subst)? {
        return Ok(false);
    }
    if !add_instance(list, part.as_nodes(), subst)? {
        return Ok(false);
    }
    add_instance(list, &nodes[there.end as usize..], subst)
}

/// Adds the nodes of the pattern's instance to a list, where this has at most 4,096 then; whether it has.
fn add_instance(list: &mut Vec<Node>, pattern: &[Node], subst: &Subst) -> Result<bool, AllocError>
    requires { length list.old.items ≤ MAX_NODES }
    ensures { IfOk result (AreAdded (flat_map (node_image (image subst.now)) pattern.now) list.old.items list.new.items) }
{
    for node in pattern {
        if !add_image(list, *node, subst)? {
            return Ok(false);
        }
    }
    Ok(true)
}

/// Adds the nodes that a node becomes.
#[inline]
fn add_image(list: &mut Vec<Node>, node: Node, subst: &Subst) -> Result<bool, AllocError>
    requires { length list.old.items ≤ MAX_NODES }
    ensures { IfOk result (AreAdded (node_image (image subst.now) node) list.old.items list.new.items) }
{
    match node {
        Node::Var(x) => match subst.get(x) {
            Some(nodes) => add_nodes(list, nodes),
            None => add_node(list, node),
        },
        Node::App(_, _) => add_node(list, node),
    }
}

/// Adds these nodes.
#[inline]
fn add_nodes(list: &mut Vec<Node>, nodes: &[Node]) -> Result<bool, AllocError>
    requires small { length list.old.items ≤ MAX_NODES }
    requires few { length nodes.now ≤ MAX_NODES }
    ensures { IfOk result (AreAdded nodes.now list.old.items list.new.items) }
{
    if is_too_large(list.len() + nodes.len()) {
        return Ok(false);
    }
    list.extend_from_slice(nodes)?;
    Ok(true)
}

/// Adds this node.
#[inline]
fn add_node(list: &mut Vec<Node>, node: Node) -> Result<bool, AllocError>
    requires { length list.old.items ≤ MAX_NODES }
    ensures { IfOk result (AreAdded (node ∷ []) list.old.items list.new.items) }
{
    if is_too_large(list.len() + 1) {
        return Ok(false);
    }
    list.push(node)?;
    Ok(true)
}

/// Whether no term has so many nodes.
pub(crate) fn is_too_large(size: usize) -> bool
    ensures large { IsTrue result → MAX_NODES < size }
    ensures small { result ≡ false → size ≤ MAX_NODES }
{
    size > MAX_NODES
}

/// An instance with one of its subterms replaced, and that subterm's place.
#[derive(Drop)]
pub(crate) struct Placed {
    pub(crate) term: Term,
    pub(crate) there: Pos,
}

/// The instance of a term with another term at the position that is at this place of the term. None exactly where one of the
/// three has more than 4,096 nodes.
pub(crate) fn replaced(
    alloc: Global,
    term: &Term,
    place: u32,
    instance: &Option<Term>,
    part: &Option<Term>,
) -> Result<Option<Placed>, AllocError>
    requires { place < nodes term.now }
    ensures { IfOk result (λ placed. (σ : ℕ → Tree) (v : Tree) → IsInstance σ term.now instance.now → IsInstance σ v part.now → IsReplaced σ term.now place v placed) }
{
    let Some(whole) = instance else {
        return Ok(None);
    };
    let Some(part) = part else {
        return Ok(None);
    };
    let path = term.path(alloc, Pos(place))?;
    let Some(there) = whole.pos_of(path.as_slice()) else {
        return Ok(None);
    };
    put_part(alloc, whole, there, part)
}

/// The term with its subterm at a place replaced. None exactly where it has more than 4,096 nodes.
pub(crate) fn put_part(
    alloc: Global,
    term: &Term,
    there: Pos,
    part: &Term,
) -> Result<Option<Placed>, AllocError>
    requires { there.0 < nodes term.now }
    ensures { IfOk result (IsPut term.now there.0 part.now) }
{
    match term.put(alloc, there, part) {
        Ok(term) => Ok(Some(Placed { term, there })),
        Err(fault) => match fault {
            TermFault::NoMemory => Err(AllocError),
            _ => Ok(None),
        },
    }
}
