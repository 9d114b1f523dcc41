//! The newest head, shared by what records the rows and what writes the lines, on one thread.

use crate::head::Head;
use std::alloc::{AllocError, Global};
use std::cell::Cell;
use std::rc::Rc;

/// The head of the last row that was recorded.
#[derive(Drop)]
pub struct Newest {
    head: Rc<Cell<Option<Head>>>,
}

impl Newest {
    /// None so far.
    pub fn new(alloc: Global) -> Result<Newest, AllocError> {
        Ok(Newest {
            head: Rc::new(alloc, Cell::new(None))?,
        })
    }

    /// The same, for another owner.
    pub fn share(&self) -> Result<Newest, AllocError> {
        Ok(Newest {
            head: Rc::clone(&self.head)?,
        })
    }

    pub(crate) fn set(&self, head: Option<Head>) {
        self.head.set(head);
    }

    pub(crate) fn get(&self) -> Option<Head> {
        self.head.get()
    }
}
