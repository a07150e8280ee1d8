use livepoint_format::LibraryFault;
use smarts_base::NoMemory as Want;
use smarts_io::ReadError;
use std::alloc::AllocFailed;

/// Why a library wasn't read to its end.
#[derive(Clone, Copy, Debug, PartialEq, Eq)]
pub enum Stop {
    /// The source failed, or memory could not be had.
    Read(ReadError),
    /// What the source gives is no library.
    Library(LibraryFault),
}

impl From<ReadError> for Stop {
    ghost use Rattle.std.specs.Prelude.{◌≡◌};
    ghost use Rattle.library_fold.specs.declared.stop.Stop.TheVariants.{Read};

    ghost from_gives = { λ error stop. stop ≡ Read error };

    fn from(error: ReadError) -> Stop {
        Stop::Read(error)
    }
}

impl From<Want> for Stop {
    ghost use Rattle.std.specs.Prelude.{◌≡◌};
    ghost use Rattle.library_fold.specs.declared.stop.Stop.TheVariants.{Read};
    ghost use Rattle.smarts_io.specs.declared.reading.ReadError.TheVariants.{NoMemory};

    ghost from_gives = { λ _ stop. stop ≡ Read NoMemory };

    fn from(_want: Want) -> Stop {
        Stop::Read(ReadError::NoMemory)
    }
}

impl<T: Drop> From<AllocFailed<T>> for Stop {
    ghost use Rattle.std.specs.Prelude.{◌≡◌};
    ghost use Rattle.library_fold.specs.declared.stop.Stop.TheVariants.{Read};
    ghost use Rattle.smarts_io.specs.declared.reading.ReadError.TheVariants.{NoMemory};

    ghost from_gives = { λ _ stop. stop ≡ Read NoMemory };

    fn from(_failed: AllocFailed<T>) -> Stop {
        Stop::Read(ReadError::NoMemory)
    }
}
