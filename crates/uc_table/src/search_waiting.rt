//! Instances of clauses that wait, each at a cell without which it can't be evaluated further.

ghost use Rattle.std.specs.Prelude.{◌≡◌, ℕ, ◌+◌, ◌-◌, ◌<◌, ◌≤◌, ◌++◌, ◌∷◌, [], length, take, IfOk, OnOk};
ghost use Rattle.uc_table.specs.Tables.{MOST_CELLS};
ghost use Rattle.uc_table.specs.SearchWaiting.{IsWell, HasPushed};

use crate::MAX_CELLS;
use std::alloc::{AllocError, Global};

/// An instance of a clause that waits: the clause's number, the assignment's, the cell, and one more than the place of the entry that
/// waited at that cell before it, or 0.
#[derive(Clone, Copy)]
pub(crate) struct Entry {
    pub form: u32,
    pub assignment: u32,
    pub cell: u32,
    pub below: usize,
}

/// What waits, in the order in which it came, and for each cell one more than the place of its last entry, or 0. So the entries of a cell
/// are a chain, and the last entries of all are taken back in turn.
#[derive(Drop)]
pub(crate) struct Waiting {
    pub entries: Vec<Entry>,
    pub heads: Vec<usize>,
}

impl Waiting {
    /// Nothing waits.
    pub(crate) fn new(alloc: Global) -> Result<Waiting, AllocError>
        ensures well { IfOk result IsWell }
        ensures none { IfOk result (λ w. w.entries.items ≡ []) }
    {
        Ok(Waiting {
            entries: Vec::new(alloc),
            heads: vec![in alloc; 0; MAX_CELLS]?,
        })
    }

    /// Lets an instance wait at a cell.
    #[inline(always)]
    pub(crate) fn wait(&mut self, form: u32, assignment: u32, cell: u32) -> Result<(), AllocError>
        requires well { IsWell self.old }
        requires cell { cell < MOST_CELLS }
        ensures well { OnOk result (IsWell self.new) }
        ensures pushed { OnOk result (HasPushed form assignment cell self.old.entries.items self.new.entries.items) }
    {
        let below = self.heads[cell as usize];
        let entry = Entry {
            form,
            assignment,
            cell,
            below,
        };
        self.entries.push(entry)?;
        self.heads[cell as usize] = self.entries.len();
        Ok(())
    }

    /// Takes the last entry back.
    fn unlink(&mut self)
        requires well { IsWell self.old }
        requires some { 0 < length self.old.entries.items }
        ensures well { IsWell self.new }
        ensures taken { self.new.entries.items ≡ take (length self.old.entries.items - 1) self.old.entries.items }
    {
        let last = self.entries.len() - 1;
        let entry = self.entries[last];
        self.heads[entry.cell as usize] = entry.below;
        self.entries.truncate(last);
    }

    /// Takes the entries behind the first `mark` back.
    pub(crate) fn take_back(&mut self, mark: usize)
        requires well { IsWell self.old }
        requires mark { mark ≤ length self.old.entries.items }
        ensures well { IsWell self.new }
        ensures taken { self.new.entries.items ≡ take mark self.old.entries.items }
    {
        while self.entries.len() > mark {
            self.unlink();
        }
    }
}
