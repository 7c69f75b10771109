//! What a sequential object is to the code: it is given operations and answers as the definition does.
ghost use Rattle.std.specs.Prelude.{◌≡◌, IfOk, OnErr, IsTrue};
ghost use Rattle.lin_report.specs.Object.{yes_if, value_or_empty};

use crate::calls::{Op, Reply};
use std::alloc::{AllocError, AllocFailed};

/// Want of memory. Nothing else is merged with it.
#[derive(Clone, Copy, Debug, PartialEq, Eq)]
pub struct NoMemory;

impl<T: Drop> From<AllocFailed<T>> for NoMemory {
    ghost from_gives = { λ _ e. e ≡ record {} };

    fn from(_refused: AllocFailed<T>) -> NoMemory {
        NoMemory
    }
}

impl From<AllocError> for NoMemory {
    ghost from_gives = { λ _ e. e ≡ record {} };

    fn from(_refused: AllocError) -> NoMemory {
        NoMemory
    }
}

/// An object that answers operations one at a time.
pub trait Sequential {
    ghost use Rattle.lin_report.specs.Object.{Object};

    /// Which object it is.
    ghost object: { Object };

    /// What it holds.
    ghost held: { Self → object.Held };

    /// Makes one operation. `NoMemory` leaves the object as it was.
    fn apply(&mut self, op: Op) -> Result<Reply, NoMemory>
        requires { IsTrue (object.serves op) }
        ensures reply { IfOk result (λ reply. reply ≡ (object.apply op (held self.old)).1) }
        ensures holds { IfOk result (λ _. held self.new ≡ (object.apply op (held self.old)).0) }
        ensures unchanged { OnErr result (held self.new ≡ held self.old) };
}

/// Yes where it is so, and else no.
pub(crate) fn yes_if(is_so: bool) -> Reply
    ensures { result ≡ yes_if is_so }
{
    if is_so { Reply::Yes } else { Reply::No }
}

/// The number, if there is one, and else empty.
pub(crate) fn value_or_empty(number: Option<u32>) -> Reply
    ensures { result ≡ value_or_empty number }
{
    match number {
        Some(value) => Reply::Value(value),
        None => Reply::Empty,
    }
}

#[cfg(test)]
mod tests;
