use std::alloc::{AllocError, Global};
use std::test::Fail;
use uc_term::{Node, Pos, Subst, Sym, Term, TermFault};

const F: Sym = Sym(0);

const A: Sym = Sym(1);

const X: Node = Node::Var(0);

const Y: Node = Node::Var(9);

// `f` of two terms.
fn f(g: Global, left: Term, right: Term) -> Result<Term, TermFault> {
    Term::app(g, F, &[left, right])
}

// `f(Y,f(X,Y))`.
fn nested(g: Global) -> Result<Term, TermFault> {
    let inner = f(g, Term::var(g, 0)?, Term::var(g, 9)?)?;
    f(g, Term::var(g, 9)?, inner)
}

// The substitution of a term for `X`.
fn for_x(g: Global, term: &Term) -> Result<Subst, AllocError> {
    let mut subst = Subst::new(g);
    subst.add(0, term.as_nodes())?;
    Ok(subst)
}

// A term of so many levels of `f`, with 2^(n + 1) - 1 nodes.
fn tower(g: Global, levels: usize) -> Result<Term, TermFault> {
    let mut term = Term::var(g, 0)?;
    for _ in 0..levels {
        term = f(g, term.copy(g)?, term)?;
    }
    Ok(term)
}

#[test]
fn instances(rt: HostRuntime) -> Result<(), Fail> {
    let g = rt.alloc();
    let constant = Term::app(g, A, &[])?;
    let term = nested(g)?.apply(g, &for_x(g, &constant)?)?;
    let wanted = [Node::App(F, 2), Y, Node::App(F, 2), Node::App(A, 0), Y];
    assert!(rt; term.as_nodes() == wanted.as_slice());
    Ok(())
}

// A tower of so many levels in the place of each variable of another one.
fn tower_of_towers(g: Global, outer: usize, inner: usize) -> Result<Term, TermFault> {
    tower(g, outer)?.apply(g, &for_x(g, &tower(g, inner)?)?)
}

// 2^5 leaves of 2^7 - 1 nodes each, with the 2^5 - 1 above them: one less than 2^12, and then nearly twice as many.
#[test]
fn large_instances(rt: HostRuntime) -> Result<(), Fail> {
    assert!(rt; tower_of_towers(rt.alloc(), 5, 6)?.nodes() == 4095);
    let large = tower_of_towers(rt.alloc(), 6, 6);
    assert!(rt; matches!(large, Err(TermFault::TooLarge)));
    Ok(())
}

#[test]
fn variables(rt: HostRuntime) -> Result<(), Fail> {
    let g = rt.alloc();
    assert!(rt; nested(g)?.vars(g)?.as_slice() == [9, 0].as_slice());
    assert!(rt; Term::app(g, A, &[])?.vars(g)?.is_empty());
    assert!(rt; !nested(g)?.is_ground());
    Ok(())
}

// Whether the subterm at a place has this written position and these nodes.
fn is_subterm(
    g: Global,
    term: &Term,
    place: u32,
    path: &[u32],
    nodes: &[Node],
) -> Result<bool, TermFault> {
    if place >= term.nodes() || term.pos_of(path) != Some(Pos(place)) {
        return Ok(false);
    }
    Ok(term.path(g, Pos(place))?.as_slice() == path && term.at(Pos(place))? == nodes)
}

// One row a place: the written position, and the nodes of the subterm there.
const SUBTERMS: &[(u32, &[u32], &[Node])] = &[
    (1, &[1], &[Y]),
    (2, &[2], &[Node::App(F, 2), X, Y]),
    (3, &[2, 1], &[X]),
    (4, &[2, 2], &[Y]),
];

#[test]
fn subterms(rt: HostRuntime) -> Result<(), Fail> {
    let term = nested(rt.alloc())?;
    for (place, path, nodes) in SUBTERMS {
        assert!(rt;
            is_subterm(rt.alloc(), &term, *place, path, nodes)?,
            "{place}"
        );
    }
    assert!(rt; term.pos_of(&[3]).is_none());
    assert!(rt; matches!(term.at(Pos(5)), Err(TermFault::NoSuchPosition)));
    Ok(())
}

// X in the place of the second argument.
#[test]
fn replaced(rt: HostRuntime) -> Result<(), Fail> {
    let g = rt.alloc();
    let term = nested(g)?;
    let placed = term.put(g, Pos(2), &Term::var(g, 0)?)?;
    assert!(rt; placed.as_nodes() == [Node::App(F, 2), Y, X].as_slice());
    assert!(rt; !placed.same(&term) && placed.same(&placed.copy(g)?));
    Ok(())
}
