//! Equations and their sides.

use crate::Term;

/// A side of an equation.
#[derive(Clone, Copy, PartialEq, Eq, Debug)]
pub enum Side {
    Left,
    Right,
}

/// Two terms that are said to be equal. Its variables stand for all terms.
#[derive(Drop)]
pub struct Equation {
    pub left: Term,
    pub right: Term,
}
