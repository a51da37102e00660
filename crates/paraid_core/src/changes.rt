//! The dirty bits that a plan has set, with what they were before: so that a plan which is not
//! completed can be undone.
ghost use Rattle.std.specs.Prelude.{◌≡◌, ◌<◌, ◌≤◌, ◌∷◌, ◌++◌, [], length, IfOk, MatchOption};

use paraid_base::{DiskNo, NoMemory, Row};
use std::alloc::Global;
use std::marker::Model;

/// The most bits that a plan sets: two for each of eight blocks.
pub const MOST_CHANGES: usize = 16;

/// A dirty bit that was set, and what it was.
#[derive(Clone, Copy)]
pub struct Change {
    pub row: Row,
    pub disk: DiskNo,
    pub was: bool,
}

/// Up to sixteen changes in the order in which they were made. It is seen as their list.
#[derive(Drop)]
pub struct Changes {
    list: Vec<Change>,
}

impl Model for Changes {
    ghost use Rattle.std.specs.Prelude.{List, length, ◌≤◌, vec_capacity};
    ghost use Rattle.paraid_core.specs.declared.changes.Change.{Change as ChangeType};

    ghost Value = { List ChangeType };

    ghost view = { λ c. c.list.items };

    ghost invariant = { λ c. (length c.list.items ≤ 16) × (16 ≤ vec_capacity c.list) };
}

impl Changes {
    /// No changes, with the memory for all that there may be.
    pub fn new(alloc: Global) -> Result<Changes, NoMemory>
        ensures { IfOk result (λ changes. changes ≡ []) }
    {
        let Ok(list) = Vec::with_capacity(alloc, MOST_CHANGES) else {
            return Err(NoMemory);
        };
        Ok(Changes { list })
    }

    /// Adds a change at the end.
    pub fn push(&mut self, row: Row, disk: DiskNo, was: bool)
        requires { length self.old < 16 }
        ensures { self.new ≡ self.old ++ (record { row = row; disk = disk; was = was }) ∷ [] }
    {
        self.list.push_reserved(Change { row, disk, was });
    }

    /// Takes the last change away.
    pub fn pop(&mut self) -> Option<Change>
        ensures { MatchOption result ((self.old ≡ []) × (self.new ≡ []))
            (λ change. self.old ≡ self.new ++ change ∷ []) }
    {
        self.list.pop()
    }

    /// Forgets all of them.
    pub fn clear(&mut self)
        ensures { self.new ≡ [] }
    {
        self.list.clear();
    }
}
