//! The grammar of terms, literals, clauses and items.

mod alone;
mod draft;
mod file;
mod head;
mod item;
mod literal;
mod note;
mod refusal;
mod stop;
mod term;
mod variables;

pub use alone::{read_equation, read_term};
pub use draft::MAX_ARITY;
pub use file::{MAX_BYTES, item_at, literal_at, read_items};
pub use head::Head;
pub use item::{Heading, Inclusion, Opening};
pub use literal::MAX_BRACKETS;
pub use stop::{Stop, Why};
pub use term::term_at;
pub use variables::Variables;
