//! Why a run ends before its time.

use std::alloc::AllocError;
use uc_term::TermFault;

/// Why a run ends before its time.
#[derive(Clone, Copy, PartialEq, Eq, Debug)]
pub enum Trouble {
    NoMemory,
    /// A term of the problem is too large.
    Large,
    /// The book and the machine differ in this.
    Differ(&'static str),
}

impl From<AllocError> for Trouble {
    fn from(_: AllocError) -> Trouble {
        Trouble::NoMemory
    }
}

impl From<TermFault> for Trouble {
    fn from(fault: TermFault) -> Trouble {
        match fault {
            TermFault::NoMemory => Trouble::NoMemory,
            _ => Trouble::Large,
        }
    }
}

pub fn check(holds: bool, what: &'static str) -> Result<(), Trouble> {
    if holds {
        Ok(())
    } else {
        Err(Trouble::Differ(what))
    }
}
