// How a call can end. A wait is no error, so an outcome is no Result.
ghost use Rattle.std.specs.Prelude.{◌≡◌};
ghost use Rattle.model.specs.declared.ends.CallError.TheVariants as error;
ghost use Rattle.model.specs.declared.objects.Fault.TheVariants.{Memory};

use crate::objects::Fault;
use rights::Answer;
use std::alloc::AllocFailed;

#[derive(Clone, Copy, Debug, PartialEq, Eq)]
pub enum Outcome {
    // It came back with an answer.
    Answered(Answer),
    // Its thread waits at a port.
    Waiting(usize),
}

// A thread may not do what it asks for.
#[derive(Clone, Copy, Debug, PartialEq, Eq)]
pub struct Refused;

// Why a call came to nothing: it is refused, or the program gives up.
#[derive(Clone, Copy, Debug, PartialEq, Eq)]
pub enum CallError {
    Refused,
    Fault(Fault),
}

impl From<Refused> for CallError {
    ghost from_gives = { λ _ e. e ≡ error.Refused };

    fn from(_e: Refused) -> CallError {
        CallError::Refused
    }
}

impl From<Fault> for CallError {
    ghost from_gives = { λ fault e. e ≡ error.Fault fault };

    fn from(fault: Fault) -> CallError {
        CallError::Fault(fault)
    }
}

impl<T: Drop> From<AllocFailed<T>> for CallError {
    ghost from_gives = { λ _ e. e ≡ error.Fault Memory };

    fn from(_e: AllocFailed<T>) -> CallError {
        CallError::Fault(Fault::Memory)
    }
}
