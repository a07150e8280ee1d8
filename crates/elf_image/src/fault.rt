use thiserror::Error;

/// Why a file is no image that can run.
#[derive(Clone, Copy, Debug, PartialEq, Eq, Error)]
pub enum ImageFault {
    #[error("not an ELF file")]
    NotElf = 1,
    #[error("not a little-endian 32-bit file for RISC-V")]
    NotRiscv32 = 2,
    #[error("not a file that runs without an interpreter")]
    NotExecutable = 3,
    #[error("compressed instructions")]
    Compressed = 4,
    #[error("the program headers aren't in the file")]
    HeaderOutside = 5,
    #[error("a segment's bytes aren't in the file")]
    SegmentOutside = 6,
    #[error("a segment's addresses are out of range")]
    SegmentRange = 7,
    #[error("two segments share an address")]
    Overlap = 8,
    #[error("the file is too large")]
    TooLarge = 9,
    #[error("the entry isn't an address of an instruction")]
    BadEntry = 10,
    #[error("the segments span too many addresses")]
    SpanTooLarge = 11,
}
