//! What is answered to a question.

use uc_term::Term;

/// Whether two ground terms are equal, by their normal forms.
#[derive(Debug, Drop)]
pub enum Reply {
    /// Both have this normal form.
    Equal(Term),
    /// The two have these normal forms, which differ.
    Different(Term, Term),
    /// So many steps were made, which is as many as were allowed, and a further one is possible.
    Spent(u32),
    /// Fewer steps were made, and the next one leads to a term of more than 4,096 nodes.
    Grown,
}
