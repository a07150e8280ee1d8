ghost use Rattle.std.specs.Prelude.{◌≡◌, ◌<◌, ◌≤◌, length};
ghost use Rattle.smarts_text.specs.Status.{library_number, library_place};
ghost use Rattle.smarts_text.specs.Texts.{HasWritten, exit_line, fault_line};

use crate::line::Line;
use crate::read::WordFault;
use crate::status::{DesignFault, Status};
use elf_image::ImageFault;
use livepoint_format::LibraryFault;
use rv_exec::Trap;

#[tactic(auto, unfolding(crate::specs::Texts::fault_line))]
fn words_line(fault: WordFault) -> Line
    ensures { result ≡ fault_line (Status.BadWords fault) }
{
    let mut line = Line::new();
    line.push(b"words: fault ");
    line.push_fault(fault.kind as u8);
    line.push(b" at ");
    line.push_u32(fault.place);
    line.push(b"\n");
    line
}

#[tactic(auto, unfolding(crate::specs::Texts::fault_line))]
fn image_line(fault: ImageFault) -> Line
    ensures { result ≡ fault_line (Status.BadImage fault) }
{
    let mut line = Line::new();
    line.push(b"image: fault ");
    line.push_fault(fault as u8);
    line.push(b"\n");
    line
}

#[tactic(auto, unfolding(crate::specs::Texts::fault_line))]
fn trap_line(at: u64, trap: Trap) -> Line
    ensures { result ≡ fault_line (Status.Trapped at trap) }
{
    let mut line = Line::new();
    line.push(b"trapped at ");
    line.push_u64(at);
    line.push(b": kind ");
    line.push_fault(trap.kind as u8);
    line.push(b", pc ");
    line.push_hex(trap.pc);
    line.push(b"\n");
    line
}

#[tactic(auto, unfolding(crate::specs::Texts::fault_line))]
fn budget_line(budget: u64) -> Line
    ensures { result ≡ fault_line (Status.BudgetSpent budget) }
{
    let mut line = Line::new();
    line.push(b"budget spent after ");
    line.push_u64(budget);
    line.push(b"\n");
    line
}

// The number of the fault, and where the library has it.
fn number_and_place(fault: LibraryFault) -> (u8, u64)
    ensures number { result.0 ≡ library_number fault }
    ensures few { result.0 < 100 }
    ensures place { result.1 ≡ library_place fault }
{
    match fault {
        LibraryFault::BadMagic => (1, 0),
        LibraryFault::BadVersion => (2, 0),
        LibraryFault::BadField { at } => (3, at),
        LibraryFault::Truncated { at } => (4, at),
        LibraryFault::BadRecord { point, .. } => (5, u64::from(point)),
        LibraryFault::BadWords { point } => (6, u64::from(point)),
        LibraryFault::BadOrder { point } => (7, u64::from(point)),
        LibraryFault::TrailingBytes { at } => (8, at),
        LibraryFault::TooLarge { length } => (9, length),
        LibraryFault::BadPoint { point, .. } => (10, u64::from(point)),
        LibraryFault::BadShared { index } => (11, u64::from(index)),
        LibraryFault::BadRuns { point } => (12, u64::from(point)),
    }
}

#[tactic(auto, unfolding(crate::specs::Texts::fault_line))]
fn library_line(fault: LibraryFault) -> Line
    ensures { result ≡ fault_line (Status.BadLibrary fault) }
{
    let (number, place) = number_and_place(fault);
    let mut line = Line::new();
    line.push(b"library: fault ");
    line.push_fault(number);
    line.push(b" at ");
    line.push_u64(place);
    line.push(b"\n");
    line
}

#[tactic(auto, unfolding(crate::specs::Texts::fault_line))]
fn design_line(fault: DesignFault) -> Line
    ensures { result ≡ fault_line (Status.BadDesign fault) }
{
    let (number, value) = match fault {
        DesignFault::NoUnits { length } => (1, length),
        DesignFault::TooMany { count } => (2, count),
        DesignFault::LibraryTooLarge { length } => (3, length),
        DesignFault::Beyond { structure } => (4, u64::from(structure)),
    };
    let mut line = Line::new();
    line.push(b"design: fault ");
    line.push_fault(number);
    line.push(b" value ");
    line.push_u64(value);
    line.push(b"\n");
    line
}

#[tactic(auto, unfolding(crate::specs::Texts::fault_line))]
fn write_line(taken: u64) -> Line
    ensures { result ≡ fault_line (Status.WriteFault taken) }
{
    let mut line = Line::new();
    line.push(b"write fault after ");
    line.push_u64(taken);
    line.push(b"\n");
    line
}

fn fixed(text: &[u8]) -> Line
    requires { length text.now ≤ 64 }
    ensures { result ≡ text.now }
{
    let mut line = Line::new();
    line.push(text);
    line
}

#[tactic(auto, unfolding(crate::specs::Texts::fault_line))]
fn line_on(status: &Status) -> Line
    ensures { result ≡ fault_line status.now }
{
    match *status {
        Status::Done => Line::new(),
        Status::BadWords(fault) => words_line(fault),
        Status::BadImage(fault) => image_line(fault),
        Status::Trapped { at, trap } => trap_line(at, trap),
        Status::BudgetSpent { budget } => budget_line(budget),
        Status::BadLibrary(fault) => library_line(fault),
        Status::BadDesign(fault) => design_line(fault),
        Status::ReadFault => fixed(b"read fault\n"),
        Status::WriteFault { taken } => write_line(taken),
        Status::NoMemory => fixed(b"no memory\n"),
    }
}

/// Writes the text on a fault to the front of `out`, and answers its length, which is 0 for
/// `Done`. The rest of `out` stays.
pub fn fault_text(status: &Status, out: &mut [u8; 64]) -> usize
    ensures { HasWritten (fault_line status.now) out.old out.new result }
{
    line_on(status).write(out)
}

#[tactic(auto, unfolding(crate::specs::Texts::exit_line))]
fn line_on_exit(code: u32, length: u64) -> Line
    ensures { result ≡ exit_line code length }
{
    let mut line = Line::new();
    line.push(b"exit ");
    line.push_u32(code);
    line.push(b" after ");
    line.push_u64(length);
    line.push(b" instructions\n");
    line
}

/// Writes the text on a program's exit after `length` instructions to the front of `out`, and answers
/// its length. The rest of `out` stays.
pub fn exit_text(code: u32, length: u64, out: &mut [u8; 64]) -> usize
    ensures { HasWritten (exit_line code length) out.old out.new result }
{
    line_on_exit(code, length).write(out)
}
