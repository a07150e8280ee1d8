ghost use Rattle.std.specs.Prelude.{◌≡◌};
ghost use Rattle.smarts_base.specs.declared.refusal.Refusal.TheVariants.{NoMemory};

use std::alloc::{AllocError, AllocFailed};

/// The answer of a call for which memory could not be had. It is merged with no other cause.
#[derive(Clone, Copy, Debug, PartialEq, Eq)]
pub struct NoMemory;

impl From<AllocError> for NoMemory {
    fn from(_error: AllocError) -> NoMemory {
        NoMemory
    }
}

impl<T: Drop> From<AllocFailed<T>> for NoMemory {
    fn from(_failed: AllocFailed<T>) -> NoMemory {
        NoMemory
    }
}

/// Why a call that takes memory gave no value: a fault of its own, or want of memory.
#[derive(Clone, Copy, Debug, PartialEq, Eq, Drop)]
pub enum Refusal<E> {
    /// What was asked for is refused, for this reason.
    Fault(E),
    /// Memory could not be had.
    NoMemory,
}

impl<E> From<NoMemory> for Refusal<E> {
    ghost from_gives = { λ _ refusal. refusal ≡ NoMemory };

    fn from(_missing: NoMemory) -> Refusal<E> {
        Refusal::NoMemory
    }
}

impl<E> From<AllocError> for Refusal<E> {
    ghost from_gives = { λ _ refusal. refusal ≡ NoMemory };

    fn from(_error: AllocError) -> Refusal<E> {
        Refusal::NoMemory
    }
}

impl<E, T: Drop> From<AllocFailed<T>> for Refusal<E> {
    ghost from_gives = { λ _ refusal. refusal ≡ NoMemory };

    fn from(_failed: AllocFailed<T>) -> Refusal<E> {
        Refusal::NoMemory
    }
}
