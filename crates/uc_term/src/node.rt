//! The nodes of a term's flat prefix list.

/// A symbol: its number in a table of names with arities.
#[derive(Clone, Copy, PartialEq, Eq, Hash, Debug)]
pub struct Sym(pub u32);

/// A node of a term: a variable by its number, or a symbol with the number of its arguments.
#[derive(Clone, Copy, PartialEq, Eq, Debug)]
pub enum Node {
    Var(u32),
    App(Sym, u32),
}

/// A node's place in prefix order, from 0.
#[derive(Clone, Copy, PartialEq, Eq, Debug)]
pub struct Pos(pub u32);
