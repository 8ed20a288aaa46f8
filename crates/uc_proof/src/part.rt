//! The parts of which a proof is made.

// What a line of a proof stands for: an axiom by its number, which is a clause of the problem or one of the encoding's; the
// goal clause of a number; the fact of a number with its chain; the goal with the chain between its sides; or the refutation.
#[derive(Clone, Copy, PartialEq, Eq, Hash, Debug)]
pub(crate) enum Part {
    Axiom(u32),
    Denial(u32),
    Fact(u32),
    Conclusion,
    Refutation,
}
