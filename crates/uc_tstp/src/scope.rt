//! Which lines stand together.

/// What lines are together: a proof, or a derivation, in which no line is a refutation.
#[derive(Clone, Copy, PartialEq, Eq, Debug)]
pub enum Scope {
    Proof,
    Derivation,
}
