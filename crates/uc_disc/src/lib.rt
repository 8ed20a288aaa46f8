//! A perfect discrimination tree over numbered equations (McCune, Experiments with discrimination-tree indexing): one walk
//! finds which of their sides a term is an instance of, repeated variables and sides that are a variable included.
//!
//! A side is spelled as labels in prefix order; sides with a common front share its places. The places stand in one list in
//! preorder, each with its depth and a mark: the next place that isn't below it, and the least rule below it, by which whole
//! branches are passed over. A walk takes no memory until it stands at a leaf, so that the term is known to be an instance.
//! Where the root has many branches, a table says where those under each symbol begin, and a walk goes over those under
//! variables and under the term's first symbol alone. A side that is embedded in the other side is passed over where the test
//! accepts nothing that is found at such a side.
//!
//! [`Tree`] is an `Index` of its equations, with the answers of a scan over them. `specs/` says what makes a list of places a
//! tree.
#![tactic(auto)]

mod build;
mod facts;
mod heads;
mod idle;
mod place;
mod search;
mod seats;
mod spelling;
mod tree;
mod walk;

pub use tree::Tree;
