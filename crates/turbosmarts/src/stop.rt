use crate::fault::InputFault;
use smarts_base::{NoMemory as Want, Refusal};
use smarts_io::ReadError;

/// Why a command has nothing to write.
#[derive(Clone, Copy, Debug, PartialEq, Eq)]
pub enum Stop {
    /// The source failed, or memory could not be had.
    Read(ReadError),
    /// The input has this fault.
    Fault(InputFault),
}

impl From<ReadError> for Stop {
    ghost use Rattle.std.specs.Prelude.{◌≡◌};
    ghost use Rattle.turbosmarts.specs.declared.stop.Stop.TheVariants.{Read};

    ghost from_gives = { λ error stop. stop ≡ Read error };

    fn from(error: ReadError) -> Stop {
        Stop::Read(error)
    }
}

impl From<Want> for Stop {
    ghost use Rattle.std.specs.Prelude.{◌≡◌};
    ghost use Rattle.smarts_io.specs.declared.reading.ReadError.TheVariants.{NoMemory};
    ghost use Rattle.turbosmarts.specs.declared.stop.Stop.TheVariants.{Read};

    ghost from_gives = { λ _ stop. stop ≡ Read NoMemory };

    fn from(_want: Want) -> Stop {
        Stop::Read(ReadError::NoMemory)
    }
}

impl From<Refusal<InputFault>> for Stop {
    ghost use Rattle.turbosmarts.specs.Served.{stop_of};
    ghost use Rattle.std.specs.Prelude.{◌≡◌};

    ghost from_gives = { λ refusal stop. stop ≡ stop_of refusal };

    fn from(refusal: Refusal<InputFault>) -> Stop {
        match refusal {
            Refusal::Fault(fault) => Stop::Fault(fault),
            Refusal::NoMemory => Stop::Read(ReadError::NoMemory),
        }
    }
}

impl From<library_fold::Stop> for Stop {
    ghost use Rattle.turbosmarts.specs.Served.{stop_at};
    ghost use Rattle.std.specs.Prelude.{◌≡◌};

    ghost from_gives = { λ from stop. stop ≡ stop_at from };

    fn from(stop: library_fold::Stop) -> Stop {
        match stop {
            library_fold::Stop::Read(error) => Stop::Read(error),
            library_fold::Stop::Library(fault) => Stop::Fault(InputFault::BadLibrary(fault)),
        }
    }
}
