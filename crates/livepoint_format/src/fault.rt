use confidence::PointFault;
use recency_record::RecordFault;
use thiserror::Error;

/// Why bytes are no library. `point` counts the points from 0 and `at` the bytes.
#[derive(Clone, Copy, Debug, PartialEq, Eq, Error)]
pub enum LibraryFault {
    /// The bytes don't begin as a library does.
    #[error("not a library")]
    BadMagic,
    /// The version is neither 1 nor 2.
    #[error("a version that there is none of")]
    BadVersion,
    /// The field that begins here has a value that it may not have.
    #[error("a field at {at} has a value that it may not have")]
    BadField {
        at: u64,
    },
    /// The bytes end here, in the middle of a field.
    #[error("the bytes end at {at}")]
    Truncated {
        at: u64,
    },
    /// A record of this point, numbered 0 to 4 in the order of caches and TLBs, breaks a rule.
    #[error("a record of point {point} breaks a rule")]
    BadRecord {
        point: u32,
        place: u8,
        fault: RecordFault,
    },
    /// The addresses of this point's words don't rise, or aren't multiples of 4, or a word that the table has
    /// stands among the point's own.
    #[error("the words of point {point} aren't in order")]
    BadWords {
        point: u32,
    },
    /// This point isn't of the unit that the order of visits has there.
    #[error("point {point} isn't of the unit that is visited there")]
    BadOrder {
        point: u32,
    },
    /// There are more bytes, from here on, behind the end.
    #[error("more bytes from {at} on")]
    TrailingBytes {
        at: u64,
    },
    /// There are more bytes than a library may have.
    #[error("{length} bytes are too many")]
    TooLarge {
        length: u64,
    },
    /// This point isn't one of the run that the header tells of: simulating it came to a fault.
    #[error("point {point} isn't one of the run")]
    BadPoint {
        point: u32,
        fault: PointFault,
    },
    /// This pair of the table isn't above the one before it, or its address isn't a multiple of 4.
    #[error("the shared pair {index} isn't in order")]
    BadShared {
        index: u32,
    },
    /// A run of this point isn't a stretch of the table behind those before it, or has too many words.
    #[error("the runs of point {point} aren't stretches of the table")]
    BadRuns {
        point: u32,
    },
}
