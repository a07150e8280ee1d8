mod listed;
mod processors;

use super::*;
use confidence::{Sums, Test};
use configured::config;
use elf_image::ImageFault;
use hierarchy::Config;
use live_points::{Kinds, Records};
use livepoint_format::LibraryFault;
use ordered_fold::Ending;
use processors::{least_config, most_config, usual_config};
use rv_exec::{Trap, TrapKind};
use sample_design::Design;
use smarts_base::{NoMemory, Refusal};
use std::alloc::{AllocGlobal, Global};
use std::process::Abort;
use std::test::Fail;

fn words(alloc: Global, line: &str) -> Result<Vec<String>, NoMemory> {
    let mut words = Vec::new(alloc);
    for word in line.split(' ') {
        words.push(String::from_str(alloc, word)?)?;
    }
    Ok(words)
}

fn expect_fault(
    rt: &(impl Abort + AllocGlobal),
    line: &str,
    kind: WordKind,
    place: u32,
) -> Result<(), Fail> {
    let words = words(rt.alloc(), line)?;
    let fault = Refusal::Fault(WordFault { kind, place });
    assert_eq!(rt; read_words(&words).err(), Some(fault), "{line}");
    Ok(())
}

fn expect_command(
    rt: &(impl Abort + AllocGlobal),
    line: &str,
    command: &Command,
) -> Result<(), Fail> {
    let words = words(rt.alloc(), line)?;
    match read_words(&words) {
        Ok(found) => assert!(rt; are_same(&found, command), "{line}"),
        Err(_) => return Err(Fail::new("words are refused")),
    }
    Ok(())
}

fn are_same(one: &Command, other: &Command) -> bool {
    match (one, other) {
        (
            Command::Sample {
                design,
                config,
                test,
            },
            Command::Sample {
                design: same_design,
                config: same_config,
                test: same_test,
            },
        ) => design == same_design && config == same_config && test == same_test,
        (
            Command::Demo {
                size,
                design,
                config,
                test,
            },
            Command::Demo {
                size: same_size,
                design: same_design,
                config: same_config,
                test: same_test,
            },
        ) => {
            size == same_size && design == same_design && config == same_config && test == same_test
        }
        (
            Command::Warm { design, records },
            Command::Warm {
                design: same_design,
                records: same_records,
            },
        ) => {
            design == same_design
                && records.places == same_records.places
                && records.kinds.as_slice() == same_records.kinds.as_slice()
        }
        (Command::Migrate, Command::Migrate) => true,
        (
            Command::Run { budget },
            Command::Run {
                budget: same_budget,
            },
        ) => budget == same_budget,
        _ => false,
    }
}

/// Words, and the kind and place of their first fault.
const REFUSED: [(&str, WordKind, u32); 40] = [
    ("", WordKind::UnknownCommand, 0),
    ("test", WordKind::UnknownCommand, 0),
    ("Sample unit=x", WordKind::UnknownCommand, 0),
    ("unit=16 sample", WordKind::UnknownCommand, 0),
    ("sample unit", WordKind::UnknownKey, 1),
    ("sample ", WordKind::UnknownKey, 1),
    ("sample =5", WordKind::UnknownKey, 1),
    ("sample Unit=16", WordKind::UnknownKey, 1),
    ("sample unit =16", WordKind::UnknownKey, 1),
    ("sample b.unit=16", WordKind::UnknownKey, 1),
    ("sample foo=1 unit=15 foo=1", WordKind::UnknownKey, 1),
    ("run unit=16", WordKind::UnknownKey, 1),
    ("run budget=5 machine=scalar", WordKind::UnknownKey, 2),
    ("sample unit=16 unit=16", WordKind::Repeated, 2),
    ("sample unit=16 unit=x", WordKind::Repeated, 2),
    ("sample unit=16 min=2 unit=1=6", WordKind::Repeated, 3),
    ("sample unit=x", WordKind::BadValue, 1),
    ("sample unit=x unit=16", WordKind::BadValue, 1),
    ("sample unit=", WordKind::BadValue, 1),
    ("sample unit==16", WordKind::BadValue, 1),
    ("sample unit=+16", WordKind::BadValue, 1),
    ("sample unit=-16", WordKind::BadValue, 1),
    ("sample unit=1_000", WordKind::BadValue, 1),
    ("sample unit=0x20", WordKind::BadValue, 1),
    ("sample unit=\u{661}\u{666}", WordKind::BadValue, 1),
    ("sample unit=00000000000000000016", WordKind::BadValue, 1),
    ("sample machine=x", WordKind::BadValue, 1),
    ("sample machine=RUU", WordKind::BadValue, 1),
    ("sample machine=", WordKind::BadValue, 1),
    ("sample unit=15", WordKind::OutOfRange, 1),
    ("sample min=1 unit=15", WordKind::OutOfRange, 1),
    ("sample min=2 unit=10001", WordKind::OutOfRange, 2),
    ("sample seed=1000000000000000001", WordKind::OutOfRange, 1),
    ("sample unit=9999999999999999999", WordKind::OutOfRange, 1),
    ("sample offset=1000000 every=1", WordKind::OutOfRange, 1),
    ("run budget=0", WordKind::OutOfRange, 1),
    ("run budget=68719476737", WordKind::OutOfRange, 1),
    ("sample offset=100", WordKind::OffsetNotBelowEvery, 2),
    (
        "sample machine=scalar offset=7 every=7",
        WordKind::OffsetNotBelowEvery,
        4,
    ),
    ("sample offset=1 every=1 unit=x", WordKind::BadValue, 3),
];

#[test]
fn names_the_first_fault(rt: HostRuntime) -> Result<(), Fail> {
    assert_eq!(rt;
        read_words(&[]).err(),
        Some(Refusal::Fault(WordFault {
            kind: WordKind::NoCommand,
            place: 0
        }))
    );
    for (line, kind, place) in REFUSED {
        expect_fault(&rt, line, kind, place)?;
    }
    Ok(())
}

/// Words that describe no processor or no program, and the kind and place of their first fault.
const REFUSED_PROCESSORS: [(&str, WordKind, u32); 44] = [
    ("sample ruu=8", WordKind::LsqOverRuu, 2),
    ("sample machine=scalar lsq=33", WordKind::LsqOverRuu, 3),
    (
        "sample offset=1 every=1 lsq=128 ruu=127",
        WordKind::LsqOverRuu,
        5,
    ),
    ("sample l1i=64:64", WordKind::BadValue, 1),
    ("sample l1i=64:64:4:1", WordKind::BadValue, 1),
    ("sample l1i=3:x:4", WordKind::BadValue, 1),
    ("sample l1d=", WordKind::BadValue, 1),
    ("sample l1d=::", WordKind::BadValue, 1),
    ("sample l1i=8:64:4", WordKind::OutOfRange, 1),
    ("sample l1i=4096:64:4", WordKind::OutOfRange, 1),
    ("sample l1d=48:64:4", WordKind::OutOfRange, 1),
    ("sample l1d=64:0:4", WordKind::OutOfRange, 1),
    ("sample l2=64:3:4", WordKind::OutOfRange, 1),
    ("sample l2=64:8192:4", WordKind::OutOfRange, 1),
    ("sample l2=64:64:0", WordKind::OutOfRange, 1),
    ("sample l2=64:64:17", WordKind::OutOfRange, 1),
    ("sample l2=64:64:260", WordKind::OutOfRange, 1),
    ("sample itlb=4096:8:4", WordKind::BadValue, 1),
    ("sample itlb=6:4", WordKind::OutOfRange, 1),
    ("sample dtlb=8:17", WordKind::OutOfRange, 1),
    ("sample predictor=tage:4:4:4", WordKind::BadValue, 1),
    ("sample predictor=gshare", WordKind::BadValue, 1),
    ("sample predictor=gshare:12:9", WordKind::BadValue, 1),
    (
        "sample predictor=gshare:12:9:8,bimodal:4:2:0",
        WordKind::BadValue,
        1,
    ),
    ("sample predictor=gshare:3:9:8", WordKind::OutOfRange, 1),
    ("sample predictor=gshare:15:9:8", WordKind::OutOfRange, 1),
    ("sample predictor=bimodal:4:1:0", WordKind::OutOfRange, 1),
    ("sample predictor=bimodal:4:11:0", WordKind::OutOfRange, 1),
    ("sample predictor=bimodal:4:2:17", WordKind::OutOfRange, 1),
    ("sample fetch=9", WordKind::OutOfRange, 1),
    ("sample ruu=257", WordKind::OutOfRange, 1),
    ("sample lsq=1", WordKind::OutOfRange, 1),
    ("sample tlblat=201", WordKind::OutOfRange, 1),
    ("sample workers=1", WordKind::UnknownKey, 1),
    ("sample size=1", WordKind::UnknownKey, 1),
    ("demo", WordKind::Missing, 1),
    ("demo lsq=33 offset=1 every=1", WordKind::Missing, 4),
    ("demo size=1 lsq=33", WordKind::LsqOverRuu, 3),
    ("demo size=1 offset=100", WordKind::OffsetNotBelowEvery, 3),
    ("demo size=0", WordKind::OutOfRange, 1),
    ("demo size=1000001", WordKind::OutOfRange, 1),
    ("demo size=", WordKind::BadValue, 1),
    ("demo size=1 size=1", WordKind::Repeated, 2),
    ("run ruu=32", WordKind::UnknownKey, 1),
];

#[test]
fn names_faults_of_processors_and_sizes(rt: HostRuntime) -> Result<(), Fail> {
    for (line, kind, place) in REFUSED_PROCESSORS {
        expect_fault(&rt, line, kind, place)?;
    }
    Ok(())
}

/// Words of `warm` and `migrate`, and the kind and place of their first fault.
const REFUSED_LIBRARIES: [(&str, WordKind, u32); 14] = [
    ("warm min=2", WordKind::UnknownKey, 1),
    ("warm machine=ruu", WordKind::UnknownKey, 1),
    ("warm unit=16 fetch=4", WordKind::UnknownKey, 2),
    ("migrate unit=16", WordKind::UnknownKey, 1),
    ("migrate x", WordKind::UnknownKey, 1),
    ("warm predictor=", WordKind::BadValue, 1),
    ("warm predictor=gshare:12:9:8,", WordKind::BadValue, 1),
    ("warm predictor=,gshare:12:9:8", WordKind::BadValue, 1),
    ("warm predictor=gshare:99:9:8,foo", WordKind::BadValue, 1),
    (
        "warm predictor=gshare:9:9:8,bimodal:9:9:8,gshare:8:9:8,gshare:7:9:8,gshare:6:9",
        WordKind::BadValue,
        1,
    ),
    (
        "warm predictor=gshare:9:9:8,bimodal:9:9:8,gshare:8:9:8,gshare:7:9:8,gshare:6:9:8",
        WordKind::OutOfRange,
        1,
    ),
    (
        "warm predictor=gshare:09:9:8,gshare:9:9:8",
        WordKind::OutOfRange,
        1,
    ),
    (
        "warm predictor=bimodal:4:2:0,gshare:3:9:8",
        WordKind::OutOfRange,
        1,
    ),
    ("warm offset=100", WordKind::OffsetNotBelowEvery, 2),
];

#[test]
fn names_faults_of_libraries(rt: HostRuntime) -> Result<(), Fail> {
    for (line, kind, place) in REFUSED_LIBRARIES {
        expect_fault(&rt, line, kind, place)?;
    }
    Ok(())
}

fn sample(design: Design, config: Config, test: Test) -> Command {
    Command::Sample {
        design,
        config,
        test,
    }
}

const DESIGN: Design = Design {
    unit: 1000,
    warm: 2000,
    every: 100,
    offset: 0,
    seed: 1,
    budget: 1_000_000_000,
};

const TEST: Test = Test {
    min: 30,
    z: 3000,
    error: 300,
};

const LEAST: Design = Design {
    unit: 16,
    warm: 0,
    every: 1,
    offset: 0,
    seed: 0,
    budget: 1,
};

const MOST: Design = Design {
    unit: 10_000,
    warm: 100_000,
    every: 1_000_000,
    offset: 999_999,
    seed: 1_000_000_000_000_000_000,
    budget: 1 << 36,
};

/// Every key of `sample` with the least value that it takes.
const LEAST_WORDS: &str =
    "sample unit=16 warm=0 every=1 offset=0 seed=0 budget=1 min=2 z=1 error=1 machine=scalar \
    l1i=16:1:1 l1d=32:2:1 l2=64:4:1 itlb=8:1 dtlb=16:1 predictor=bimodal:4:2:0 fetch=1 \
    dispatch=1 issue=1 retire=1 queue=1 ruu=4 lsq=2 penalty=1 alus=1 muls=1 divs=1 loads=1 \
    stores=1 branches=1 mullat=1 divlat=1 l1lat=1 fwdlat=1 l2lat=1 memlat=1 tlblat=0";

/// Every key of `sample` with the greatest value that it takes, in another order.
const MOST_WORDS: &str =
    "sample tlblat=200 memlat=1000 l2lat=100 fwdlat=16 l1lat=16 divlat=64 mullat=16 branches=7 stores=6 \
    loads=5 divs=4 muls=3 alus=2 penalty=64 lsq=128 ruu=256 queue=32 retire=8 issue=7 dispatch=6 \
    fetch=5 predictor=gshare:14:10:16 dtlb=4096:16 itlb=2048:15 l2=256:1024:14 l1d=128:512:13 \
    l1i=16:256:12 machine=ruu error=5000 z=4000 min=65536 budget=68719476736 \
    seed=1000000000000000000 offset=999999 every=1000000 warm=100000 unit=10000";

#[test]
fn reads_samples(rt: HostRuntime) -> Result<(), Fail> {
    let usual = sample(DESIGN, usual_config()?, TEST);
    expect_command(&rt, "sample", &usual)?;
    expect_command(
        &rt,
        "sample unit=0000000000000001000 machine=ruu offset=0 predictor=gshare:0012:9:8",
        &usual,
    )?;
    let least = Test {
        min: 2,
        z: 1,
        error: 1,
    };
    expect_command(&rt, LEAST_WORDS, &sample(LEAST, least_config()?, least))?;
    let most = Test {
        min: 65_536,
        z: 4000,
        error: 5000,
    };
    expect_command(&rt, MOST_WORDS, &sample(MOST, most_config()?, most))
}

#[test]
fn reads_other_commands(rt: HostRuntime) -> Result<(), Fail> {
    for (line, budget) in [
        ("run", 1_000_000_000),
        ("run budget=1", 1),
        ("run budget=68719476736", 1 << 36),
    ] {
        expect_command(&rt, line, &Command::Run { budget })?;
    }
    for (line, size) in [
        ("demo size=1", 1),
        ("demo machine=ruu size=1000000", 1_000_000),
    ] {
        let demo = Command::Demo {
            size,
            design: DESIGN,
            config: usual_config()?,
            test: TEST,
        };
        expect_command(&rt, line, &demo)?;
    }
    Ok(())
}

#[test]
fn reads_what_libraries_are_made_for(rt: HostRuntime) -> Result<(), Fail> {
    expect_command(&rt, "migrate", &Command::Migrate)?;
    let usual = usual_config()?;
    let records = Records {
        places: usual.places,
        kinds: Kinds::one(usual.kind),
    };
    let warm = Command::Warm {
        design: DESIGN,
        records,
    };
    expect_command(&rt, "warm", &warm)?;
    expect_command(&rt, "warm predictor=gshare:12:9:8 l2=64:512:8", &warm)?;
    let least = least_config()?;
    let mut kinds = Kinds::one(least.kind);
    assert!(rt; kinds.add(usual.kind));
    assert!(rt; kinds.add(most_config()?.kind));
    let records = Records {
        places: least.places,
        kinds,
    };
    let warm = Command::Warm {
        design: LEAST,
        records,
    };
    expect_command(&rt, LEAST_RECORDS, &warm)
}

/// The least design, the smallest shapes, and three predictors.
const LEAST_RECORDS: &str =
    "warm unit=16 warm=0 every=1 offset=0 seed=0 budget=1 l1i=16:1:1 l1d=32:2:1 l2=64:4:1 itlb=8:1 \
    dtlb=16:1 predictor=bimodal:4:2:0,gshare:12:9:8,gshare:14:10:16";

// A key with the prefix goes before the key alone, and that before the default.
#[test]
fn reads_keys_with_a_prefix(rt: HostRuntime) -> Result<(), Fail> {
    let words = words(rt.alloc(), "b.memlat=50 memlat=70 lsq=8 b.ruu=64")?;
    for (prefix, memory, places) in [("", 70, 32), ("b.", 50, 64), ("v1.", 70, 32)] {
        let config = config(&words, prefix);
        assert_eq!(rt; config.latencies.mem, memory, "{prefix}");
        assert_eq!(rt; config.widths.lsq, 8, "{prefix}");
        assert_eq!(rt; config.widths.ruu, places, "{prefix}");
        assert_eq!(rt; config.latencies.tlb, 30, "{prefix}");
    }
    Ok(())
}

/// Statuses, with the number and the line of each.
const STATUSES: [(Status, u8, &str); 18] = [
    (Status::Done, 0, ""),
    (
        Status::BadWords(WordFault {
            kind: WordKind::NoCommand,
            place: 0,
        }),
        1,
        "words: fault 1 at 0\n",
    ),
    (
        Status::BadWords(WordFault {
            kind: WordKind::OffsetNotBelowEvery,
            place: u32::MAX,
        }),
        1,
        "words: fault 9 at 4294967295\n",
    ),
    (Status::BadImage(ImageFault::NotElf), 2, "image: fault 1\n"),
    (
        Status::BadImage(ImageFault::SpanTooLarge),
        2,
        "image: fault 11\n",
    ),
    (
        Status::Trapped {
            at: 7,
            trap: Trap {
                kind: TrapKind::MisalignedLoad,
                pc: 0x0001_0070,
            },
        },
        3,
        "trapped at 7: kind 3, pc 00010070\n",
    ),
    (
        Status::Trapped {
            at: u64::MAX,
            trap: Trap {
                kind: TrapKind::BadBuffer,
                pc: 0xFEDC_BA98,
            },
        },
        3,
        "trapped at 18446744073709551615: kind 7, pc fedcba98\n",
    ),
    (
        Status::BudgetSpent { budget: 1003 },
        4,
        "budget spent after 1003\n",
    ),
    (
        Status::BadLibrary(LibraryFault::BadVersion),
        5,
        "library: fault 2 at 0\n",
    ),
    (
        Status::BadLibrary(LibraryFault::TooLarge {
            length: 1_073_741_825,
        }),
        5,
        "library: fault 9 at 1073741825\n",
    ),
    (
        Status::BadLibrary(LibraryFault::BadShared { index: 3 }),
        5,
        "library: fault 11 at 3\n",
    ),
    (
        Status::BadLibrary(LibraryFault::BadRuns { point: 7 }),
        5,
        "library: fault 12 at 7\n",
    ),
    (
        Status::BadDesign(DesignFault::LibraryTooLarge {
            length: 5_000_000_000,
        }),
        6,
        "design: fault 3 value 5000000000\n",
    ),
    (
        Status::BadDesign(DesignFault::NoUnits { length: 15 }),
        6,
        "design: fault 1 value 15\n",
    ),
    (
        Status::BadDesign(DesignFault::TooMany { count: 66048 }),
        6,
        "design: fault 2 value 66048\n",
    ),
    (Status::ReadFault, 7, "read fault\n"),
    (
        Status::WriteFault { taken: 10 },
        8,
        "write fault after 10\n",
    ),
    (Status::NoMemory, 9, "no memory\n"),
];

#[test]
fn writes_one_line_a_status(rt: HostRuntime) {
    for (status, number, text) in STATUSES {
        let mut out = [b'.'; 64];
        let len = fault_text(&status, &mut out);
        assert_eq!(rt; &out[..len], text.as_bytes(), "{text}");
        assert!(rt; out[len..].iter().all(|&byte| byte == b'.'), "{text}");
        assert_eq!(rt; status.number(), number, "{text}");
    }
}

#[test]
fn writes_how_a_program_exited(rt: HostRuntime) {
    for (code, length, text) in [
        (0, 18, "exit 0 after 18 instructions\n"),
        (
            u32::MAX,
            u64::MAX,
            "exit 4294967295 after 18446744073709551615 instructions\n",
        ),
    ] {
        let mut out = [b'.'; 64];
        let len = exit_text(code, length, &mut out);
        assert_eq!(rt; &out[..len], text.as_bytes(), "{text}");
        assert!(rt; out[len..].iter().all(|&byte| byte == b'.'), "{text}");
    }
}

#[test]
fn reports_a_sample(rt: HostRuntime) -> Result<(), Fail> {
    let even = Sums {
        n: 30,
        s1: 480,
        s2: 7680,
    };
    let report = report_text(
        rt.alloc(),
        1004,
        62,
        16,
        Ending::Stopped { count: 30 },
        even,
        3000,
    )?;
    assert_eq!(rt;
        report.as_str(),
        "instructions 1004\npoints 62\nsampled 30\nconfident yes\ncycles 480\ncpi 1.0000\nerror 0.00%\n"
    );
    let one = Sums {
        n: 1,
        s1: 239,
        s2: 57121,
    };
    let report = report_text(rt.alloc(), 16, 1, 16, Ending::Exhausted, one, 3000)?;
    assert_eq!(rt;
        report.as_str(),
        "instructions 16\npoints 1\nsampled 1\nconfident no\ncycles 239\ncpi 14.9375\nerror none\n"
    );
    let two = Sums {
        n: 2,
        s1: 36,
        s2: 656,
    };
    let report = report_text(rt.alloc(), 40, 2, 16, Ending::Exhausted, two, 3000)?;
    assert_eq!(rt;
        report.as_str(),
        "instructions 40\npoints 2\nsampled 2\nconfident no\ncycles 36\ncpi 1.1250\nerror 33.34%\n"
    );
    Ok(())
}
