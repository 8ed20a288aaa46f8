//! The variables of a term.

ghost use Rattle.std.specs.Prelude.{◌≡◌, IfOk};
ghost use Rattle.uc_term.specs.Variables.{variables, firsts};

use crate::{Node, Seq, Term};
use indexmap::IndexSet;
use std::alloc::{AllocError, Global};

impl Term {
    /// The term's variables, each once, by first occurrence.
    pub fn vars(&self, alloc: Global) -> Result<Seq<u32>, AllocError>
        ensures { IfOk result (λ vars. vars ≡ firsts (variables self.now)) }
    {
        let mut seen: IndexSet<u32> = IndexSet::new(alloc);
        let nodes = self.as_nodes();
        for n in nodes {
            match *n {
                Node::Var(x) => {
                    seen.insert(x)?;
                }
                Node::App(_, _) => {}
            }
        }
        Ok(Seq::from_vec(Vec::from_slice(alloc, seen.as_slice())?))
    }
}
