//! Total preorders of variables.

ghost use Rattle.std.specs.Prelude.{◌≡◌, [], ◌++◌, ◌∷◌, length, IfOk, OnErr};

use crate::Seq;
use std::alloc::{AllocError, Global};
use std::marker::Model;

/// A total preorder of variables: its classes, the least class first. The variables of a class are equal in it.
#[derive(Drop, Debug)]
pub struct VarOrder {
    classes: Seq<Seq<u32>>,
}

impl Model for VarOrder {
    ghost use Rattle.std.specs.Prelude.{List, ℕ};
    ghost use Rattle.std.specs.Coded.{coded_list, coded_ℕ};

    ghost Value = { List (List ℕ) };

    ghost coded = { coded_list (coded_list coded_ℕ) };

    ghost view = { λ s. s.classes };
}

impl VarOrder {
    /// The order of no variables. It takes no memory.
    pub fn new(alloc: Global) -> Self
        ensures { result ≡ [] }
    {
        VarOrder {
            classes: Seq::new(alloc),
        }
    }

    /// The order with these classes, the least first.
    pub fn from_classes(classes: Seq<Seq<u32>>) -> Self
        ensures { result ≡ classes }
    {
        VarOrder { classes }
    }

    /// The classes, the least first.
    pub fn classes(&self) -> &[Seq<u32>]
        ensures { result.now ≡ self.now }
    {
        self.classes.as_slice()
    }

    /// How many classes there are.
    pub fn len(&self) -> usize
        ensures { result ≡ length self.now }
    {
        self.classes.len()
    }

    /// Puts a class above all others. For want of memory the class is dropped and the order stays.
    pub fn push(&mut self, class: Seq<u32>) -> Result<(), AllocError>
        ensures ok { IfOk result (λ _. self.new ≡ self.old ++ class ∷ []) }
        ensures err { OnErr result (self.new ≡ self.old) }
    {
        self.classes.push(class)
    }
}
