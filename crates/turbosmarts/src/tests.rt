// The program over memory: the status, and what the sink and the lines hold, for words and an input.

mod estimates;
mod libraries;

use crate::top::turbosmarts;
use elf_image::ImageFault;
use rv_exec::{Trap, TrapKind};
use smarts_base::{NoMemory, OpenGate};
use smarts_io::{MemorySink, MemorySource};
use smarts_text::{DesignFault, Status, WordFault, WordKind};
use std::alloc::Global;
use std::process::Abort;
use std::test::Fail;
use std::thread::Threads;

/// The headers of an ELF file for RISC-V, as far as the two sizes of its one segment, which stands
/// behind them in the file and at 0x00010054 in memory.
const FRONT: [u8; 68] = [
    0x7F, 0x45, 0x4C, 0x46, 1, 1, 1, 0, 0, 0, 0, 0, 0, 0, 0, 0, //
    2, 0, 0xF3, 0, 1, 0, 0, 0, 0x54, 0, 1, 0, 0x34, 0, 0, 0, //
    0, 0, 0, 0, 0, 0, 0, 0, 0x34, 0, 0x20, 0, 1, 0, 0, 0, 0, 0, 0, 0, //
    1, 0, 0, 0, 0x54, 0, 0, 0, 0x54, 0, 1, 0, 0x54, 0, 1, 0,
];

const BACK: [u8; 8] = [5, 0, 0, 0, 4, 0, 0, 0];

const NOP: u32 = 0x0000_0013;

// Exits with code 0.
const EXIT: [u32; 3] = [0x0000_0513, 0x05D0_0893, 0x0000_0073];

// Counts 500 down to 0.
const LOOP: [u32; 3] = [0x1F40_0293, 0xFFF2_8293, 0xFE02_9EE3];

// Count 2^19 down to 0, and 2^19 + 4096.
const LONG: [u32; 3] = [0x0008_02B7, 0xFFF2_8293, 0xFE02_9EE3];

const LONGER: [u32; 3] = [0x0008_12B7, 0xFFF2_8293, 0xFE02_9EE3];

// Divides -2^31 by -1 and by 0, and writes quotients and remainders.
const DIVIDE: [u32; 15] = [
    0x8000_02B7,
    0xFFF0_0313,
    0x0262_C3B3,
    0x0262_EE33,
    0x0202_CEB3,
    0x0202_EF33,
    0xFE71_2823,
    0xFFC1_2A23,
    0xFFD1_2C23,
    0xFFE1_2E23,
    0x0010_0513,
    0xFF01_0593,
    0x0100_0613,
    0x0400_0893,
    0x0000_0073,
];

// Makes the unknown call 80, and writes its answer.
const CALL: [u32; 8] = [
    0x0500_0893,
    0x0000_0073,
    0xFEA1_2E23,
    0x0010_0513,
    0xFFC1_0593,
    0x0040_0613,
    0x0400_0893,
    0x0000_0073,
];

// Loads a word from an odd half word.
const BAD_LOAD: [u32; 1] = [0x0010_2303];

const SMALL: &str = "sample machine=scalar unit=16 every=1";

// The file of a program of `idle` instructions that do nothing, these words, and an exit.
fn file(alloc: Global, idle: usize, words: &[u32]) -> Result<Vec<u8>, NoMemory> {
    let count = (idle % 1000 + words.len() % 1000 + EXIT.len()) as u32;
    let size = (count * 4).to_le_bytes();
    let mut bytes = Vec::new(alloc);
    bytes.extend_from_slice(&FRONT)?;
    bytes.extend_from_slice(&size)?;
    bytes.extend_from_slice(&size)?;
    bytes.extend_from_slice(&BACK)?;
    for _ in 0..idle {
        bytes.extend_from_slice(&NOP.to_le_bytes())?;
    }
    for word in words {
        bytes.extend_from_slice(&word.to_le_bytes())?;
    }
    for word in &EXIT {
        bytes.extend_from_slice(&word.to_le_bytes())?;
    }
    Ok(bytes)
}

fn words(alloc: Global, line: &str) -> Result<Vec<String>, NoMemory> {
    let mut words = Vec::new(alloc);
    for word in line.split_whitespace() {
        words.push(String::from_str(alloc, word)?)?;
    }
    Ok(words)
}

// What fails, by the number of the call.
#[derive(Clone, Copy, Debug)]
struct Failing<'a> {
    reads: &'a [u32],
    writes: &'a [u32],
    lines: &'a [u32],
}

const NOTHING: Failing<'static> = Failing {
    reads: &[],
    writes: &[],
    lines: &[],
};

#[derive(Clone, Copy, Debug)]
struct Wanted<'a> {
    status: Status,
    output: &'a [u8],
    lines: &'a str,
}

fn refused(status: Status, lines: &str) -> Wanted {
    Wanted {
        status,
        output: &[],
        lines,
    }
}

// Runs the program on these words and this input, and compares all that it answers.
fn expect<R: Abort + AllocGlobal + Threads + Sync>(
    rt: &R,
    line: &str,
    input: Vec<u8>,
    failing: Failing,
    wanted: Wanted,
) -> Result<(), Fail> {
    let alloc = rt.alloc();
    let words = words(alloc, line)?;
    let mut source = MemorySource::new(input, 77, Vec::from_slice(alloc, failing.reads)?);
    let mut sink = MemorySink::new(alloc, 10, 1000, Vec::from_slice(alloc, failing.writes)?)?;
    let mut lines = MemorySink::new(alloc, 4, 1000, Vec::from_slice(alloc, failing.lines)?)?;
    let status = turbosmarts(
        rt,
        alloc,
        &words,
        &mut source,
        &mut sink,
        &mut lines,
        &OpenGate,
    );
    assert_eq!(rt; status, wanted.status, "{line}");
    assert_eq!(rt; sink.bytes(), wanted.output, "{line}");
    assert_eq!(rt; lines.bytes(), wanted.lines.as_bytes(), "{line}");
    Ok(())
}

#[test]
fn reports_a_sample(rt: HostRuntime) -> Result<(), Fail> {
    let alloc = rt.alloc();
    let thirty =
        "instructions 1004\npoints 62\nsampled 30\nconfident yes\ncycles 480\ncpi 1.0000\nerror 0.00%\n";
    let cases = [
        ("min=30", thirty),
        ("seed=3 min=30", thirty),
        ("budget=1004", thirty),
        (
            "min=62",
            "instructions 1004\npoints 62\nsampled 62\nconfident yes\ncycles 992\ncpi 1.0000\nerror 0.00%\n",
        ),
        (
            "min=63",
            "instructions 1004\npoints 62\nsampled 62\nconfident no\ncycles 992\ncpi 1.0000\nerror 0.00%\n",
        ),
    ];
    for (more, text) in cases {
        let line = format!(in alloc; "{SMALL} {more}")?;
        let wanted = Wanted {
            status: Status::Done,
            output: text.as_bytes(),
            lines: "",
        };
        expect(&rt, &line, file(alloc, 0, &LOOP)?, NOTHING, wanted)?;
    }
    let one =
        "instructions 16\npoints 1\nsampled 1\nconfident no\ncycles 16\ncpi 1.0000\nerror none\n";
    let wanted = Wanted {
        status: Status::Done,
        output: one.as_bytes(),
        lines: "",
    };
    let line = "sample machine=scalar unit=16 warm=0";
    expect(&rt, line, file(alloc, 13, &[])?, NOTHING, wanted)
}

#[test]
fn reports_a_long_sample(rt: HostRuntime) -> Result<(), Fail> {
    let alloc = rt.alloc();
    let line =
        "sample machine=scalar unit=16 warm=0 every=1 l1i=64:1:1 l1d=64:1:1 l2=64:1:1 itlb=1:1 dtlb=1:1 predictor=bimodal:4:2:0";
    let wanted = Wanted {
        status: Status::Done,
        output: b"instructions 1048580\npoints 65536\nsampled 30\nconfident yes\ncycles 480\ncpi 1.0000\nerror 0.00%\n",
        lines: "",
    };
    expect(&rt, line, file(alloc, 0, &LONG)?, NOTHING, wanted)?;
    let wanted = refused(
        Status::BadDesign(DesignFault::TooMany { count: 66048 }),
        "design: fault 2 value 66048\n",
    );
    expect(&rt, line, file(alloc, 0, &LONGER)?, NOTHING, wanted)
}

// A multiplication costs 3 cycles, a load 5 and a division 7; everything else costs one.
#[test]
fn counts_latencies(rt: HostRuntime) -> Result<(), Fail> {
    let alloc = rt.alloc();
    let line = "sample machine=scalar unit=16 every=1 mullat=3 l1lat=5 divlat=7";
    let cases: [(u32, &str, &str); 4] = [
        (0x0252_8333, "18", "1.1250"), // mul x6, x5, x5
        (0xFFC1_2303, "20", "1.2500"), // lw x6, -4(x2)
        (0x0252_D333, "22", "1.3750"), // divu x6, x5, x5
        (0xFE51_2E23, "16", "1.0000"), // sw x5, -4(x2)
    ];
    for (word, cycles, cpi) in cases {
        let text = format!(in alloc;
            "instructions 16\npoints 1\nsampled 1\nconfident no\ncycles {cycles}\ncpi {cpi}\nerror none\n"
        )?;
        let wanted = Wanted {
            status: Status::Done,
            output: text.as_bytes(),
            lines: "",
        };
        expect(&rt, line, file(alloc, 12, &[word])?, NOTHING, wanted)?;
    }
    Ok(())
}

// Sixteen instructions that fit in one line but the last five, on the processor with a register update
// unit: two fetches miss everywhere, and the first one misses its page, too. Halving memory's latency, or
// taking the miss of the page away, shows it.
#[test]
fn times_with_a_register_update_unit(rt: HostRuntime) -> Result<(), Fail> {
    let alloc = rt.alloc();
    let cases = [
        ("", "239", "14.9375"),
        ("tlblat=0", "209", "13.0625"),
        ("memlat=50", "139", "8.6875"),
        ("machine=scalar", "16", "1.0000"),
    ];
    for (more, cycles, cpi) in cases {
        let line = format!(in alloc; "sample unit=16 warm=0 {more}")?;
        let text = format!(in alloc;
            "instructions 16\npoints 1\nsampled 1\nconfident no\ncycles {cycles}\ncpi {cpi}\nerror none\n"
        )?;
        let wanted = Wanted {
            status: Status::Done,
            output: text.as_bytes(),
            lines: "",
        };
        expect(&rt, &line, file(alloc, 13, &[])?, NOTHING, wanted)?;
    }
    Ok(())
}

// The programs are made, so that the input is left as it is, here one that can't be read.
#[test]
fn samples_made_programs(rt: HostRuntime) -> Result<(), Fail> {
    let alloc = rt.alloc();
    let unread = Failing {
        reads: &[0],
        ..NOTHING
    };
    let cases = [
        (
            "demo size=20000",
            "instructions 5160008\npoints 52\nsampled 52\nconfident no\ncycles 35446\ncpi 0.6816\nerror 36.69%\n",
        ),
        (
            "demo size=100 machine=scalar unit=100 every=3 min=10",
            "instructions 25808\npoints 86\nsampled 10\nconfident yes\ncycles 1192\ncpi 1.1920\nerror 2.46%\n",
        ),
    ];
    for (line, text) in cases {
        let wanted = Wanted {
            status: Status::Done,
            output: text.as_bytes(),
            lines: "",
        };
        expect(&rt, line, Vec::new(alloc), unread, wanted)?;
    }
    let wanted = refused(
        Status::BudgetSpent { budget: 265 },
        "budget spent after 265\n",
    );
    expect(
        &rt,
        "demo size=1 budget=265",
        Vec::new(alloc),
        unread,
        wanted,
    )
}

#[test]
fn writes_the_output_of_a_run(rt: HostRuntime) -> Result<(), Fail> {
    let alloc = rt.alloc();
    let quotients = [
        0, 0, 0, 0x80, 0, 0, 0, 0, 0xFF, 0xFF, 0xFF, 0xFF, 0, 0, 0, 0x80,
    ];
    let wanted = Wanted {
        status: Status::Done,
        output: &quotients,
        lines: "exit 0 after 18 instructions\n",
    };
    expect(&rt, "run", file(alloc, 0, &DIVIDE)?, NOTHING, wanted)?;
    let wanted = Wanted {
        status: Status::Done,
        output: &[0xDA, 0xFF, 0xFF, 0xFF],
        lines: "exit 0 after 11 instructions\n",
    };
    expect(&rt, "run", file(alloc, 0, &CALL)?, NOTHING, wanted)
}

fn bad_words(kind: WordKind, place: u32) -> Status {
    Status::BadWords(WordFault { kind, place })
}

#[test]
fn refuses_words(rt: HostRuntime) -> Result<(), Fail> {
    let alloc = rt.alloc();
    let cases = [
        ("", WordKind::NoCommand, 0, "words: fault 1 at 0\n"),
        ("test", WordKind::UnknownCommand, 0, "words: fault 2 at 0\n"),
        (
            "sample unit",
            WordKind::UnknownKey,
            1,
            "words: fault 3 at 1\n",
        ),
        (
            "sample unit=16 unit=16",
            WordKind::Repeated,
            2,
            "words: fault 4 at 2\n",
        ),
        (
            "sample unit=x",
            WordKind::BadValue,
            1,
            "words: fault 5 at 1\n",
        ),
        (
            "sample unit=15",
            WordKind::OutOfRange,
            1,
            "words: fault 6 at 1\n",
        ),
        (
            "sample every=7 offset=7",
            WordKind::OffsetNotBelowEvery,
            3,
            "words: fault 9 at 3\n",
        ),
        (
            "sample lsq=64 ruu=32",
            WordKind::LsqOverRuu,
            3,
            "words: fault 8 at 3\n",
        ),
        ("demo", WordKind::Missing, 1, "words: fault 7 at 1\n"),
    ];
    for (line, kind, place, text) in cases {
        let wanted = refused(bad_words(kind, place), text);
        expect(&rt, line, file(alloc, 0, &LOOP)?, NOTHING, wanted)?;
    }
    Ok(())
}

#[test]
fn refuses_inputs(rt: HostRuntime) -> Result<(), Fail> {
    let alloc = rt.alloc();
    let not_elf = refused(Status::BadImage(ImageFault::NotElf), "image: fault 1\n");
    expect(
        &rt,
        "sample machine=scalar",
        Vec::new(alloc),
        NOTHING,
        not_elf,
    )?;
    let mut compressed = file(alloc, 0, &LOOP)?;
    if let Some(flags) = compressed.get_mut(36) {
        *flags = 1;
    }
    let wanted = refused(Status::BadImage(ImageFault::Compressed), "image: fault 4\n");
    expect(&rt, "run", compressed, NOTHING, wanted)?;
    let mut between = file(alloc, 0, &LOOP)?;
    if let Some(entry) = between.get_mut(24) {
        *entry = 0x56;
    }
    let wanted = refused(Status::BadImage(ImageFault::BadEntry), "image: fault 10\n");
    expect(&rt, "run", between, NOTHING, wanted)?;
    let trap = Trap {
        kind: TrapKind::MisalignedLoad,
        pc: 0x0001_0070,
    };
    let wanted = refused(
        Status::Trapped { at: 7, trap },
        "trapped at 7: kind 3, pc 00010070\n",
    );
    expect(&rt, "run", file(alloc, 7, &BAD_LOAD)?, NOTHING, wanted)?;
    expect(&rt, SMALL, file(alloc, 7, &BAD_LOAD)?, NOTHING, wanted)?;
    let wanted = refused(
        Status::BudgetSpent { budget: 1003 },
        "budget spent after 1003\n",
    );
    let line = format!(in alloc; "{SMALL} budget=1003")?;
    expect(&rt, &line, file(alloc, 0, &LOOP)?, NOTHING, wanted)?;
    expect(
        &rt,
        "run budget=1003",
        file(alloc, 0, &LOOP)?,
        NOTHING,
        wanted,
    )?;
    let wanted = refused(
        Status::BadDesign(DesignFault::NoUnits { length: 15 }),
        "design: fault 1 value 15\n",
    );
    expect(&rt, SMALL, file(alloc, 12, &[])?, NOTHING, wanted)
}

#[test]
fn tells_outside_faults(rt: HostRuntime) -> Result<(), Fail> {
    let alloc = rt.alloc();
    let unread = Failing {
        reads: &[0],
        ..NOTHING
    };
    let wanted = refused(Status::ReadFault, "read fault\n");
    expect(&rt, SMALL, file(alloc, 0, &LOOP)?, unread, wanted)?;
    let unwritten = Failing {
        writes: &[1],
        ..NOTHING
    };
    let wanted = Wanted {
        status: Status::WriteFault { taken: 10 },
        output: b"instructio",
        lines: "write fault after 10\n",
    };
    expect(&rt, SMALL, file(alloc, 0, &LOOP)?, unwritten, wanted)?;
    // lines that fail leave the end as it is
    let untold = Failing {
        lines: &[1],
        ..NOTHING
    };
    let wanted = refused(bad_words(WordKind::NoCommand, 0), "word");
    expect(&rt, "", file(alloc, 0, &LOOP)?, untold, wanted)
}
