//! What a certificate of saturation says.

use uc_check::Proof;
use uc_fact::Side;
use uc_order::VarOrder;
use uc_system::SystemText;
use uc_term::{Seq, Term};

/// A certificate: the description of an order with a system, a derivation of the system's facts, for each fact the number of the
/// line of the derivation that derives it, and the joins of the axioms and of the overlaps of the facts.
#[derive(Drop)]
pub struct Certificate {
    pub text: SystemText,
    pub lines: Proof,
    pub facts: Seq<u32>,
    pub joins: Seq<Join>,
}

/// How two terms are joined: the replacements that lead from each of the two to its end, and why the ends are joined.
#[derive(Drop)]
pub struct Join {
    pub what: What,
    pub left: Seq<Move>,
    pub right: Seq<Move>,
    pub end: End,
}

/// What is joined: the two sides of the axiom of this number, or the two terms of an overlap, where a side of one fact, the inner
/// one, is unified with the subterm at a position, with arguments counted from 1, of a side of another one, the outer one.
#[derive(Drop)]
pub enum What {
    Axiom(u32),
    Overlap {
        outer: u32,
        outer_side: Side,
        inner: u32,
        inner_side: Side,
        path: Seq<u32>,
    },
}

/// A replacement in a term: the fact that is used and which way, the position of the subterm that it replaces, with arguments
/// counted from 1, and the whole term behind the replacement.
#[derive(Drop)]
pub struct Move {
    pub fact: u32,
    pub left_to_right: bool,
    pub path: Seq<u32>,
    pub to: Term,
}

/// Why two ends are joined: they are equal; they are, either way round, the two sides of one instance of the fact of this number;
/// under each order of their variables further replacements lead to one term; or they are equal up to brackets and order at the
/// symbols that these facts make associative and commutative.
#[derive(Drop)]
pub enum End {
    Same,
    Instance(u32),
    Orders(Seq<Case>),
    Ac(Seq<AcTriple>),
}

/// The numbers of three facts that make one symbol associative and commutative: `f(f(X,Y),Z) = f(X,f(Y,Z))`, `f(X,Y) = f(Y,X)` and
/// `f(X,f(Y,Z)) = f(Y,f(X,Z))`, in this order.
#[derive(Clone, Copy, PartialEq, Eq, Debug)]
pub struct AcTriple {
    pub assoc: u32,
    pub comm: u32,
    pub extended: u32,
}

/// An order of the variables of two ends, and the replacements under it that lead from each of the two to one term.
#[derive(Drop)]
pub struct Case {
    pub cases: VarOrder,
    pub left: Seq<Move>,
    pub right: Seq<Move>,
}
