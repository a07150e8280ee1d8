ghost use Rattle.std.specs.Prelude.{◌≡◌, ◌∷◌, [], map, IfOk};
ghost use Rattle.hierarchy.specs.declared.config.Config.{Config as ConfigValue};
ghost use Rattle.predictor.specs.Kind.{IsKind};
ghost use Rattle.sample_design.specs.Design.{IsUsable};
ghost use Rattle.window_sim.specs.Desk.{IsServed, IsTaken};

use super::*;
use confidence::{Answer, PointFault, PointKind, Test};
use hierarchy::{Config, Latencies, Places, Widths};
use live_points::{Header, Images, Kinds, LivePoint, Records, within};
use live_words::Words;
use lru_plain::Geometry;
use ordered_fold::Ending;
use predictor::{Predictor, PredictorKind, Scheme};
use recency_record::{Record, Snapshot};
use sample_design::Design;
use smarts_base::OpenGate;
use std::alloc::Global;
use std::test::Fail;

const DESIGN: Design = Design {
    unit: 16,
    warm: 0,
    every: 1,
    offset: 0,
    seed: 1,
    budget: 1,
};

const KIND: PredictorKind = PredictorKind {
    scheme: Scheme::Gshare,
    bits: 12,
    target_log: 9,
    depth: 8,
};

const WIDTHS: Widths = Widths {
    fetch: 4,
    dispatch: 4,
    issue: 4,
    retire: 4,
    queue: 8,
    ruu: 32,
    lsq: 16,
    penalty: 6,
    forward: 1,
    alus: 4,
    muls: 1,
    divs: 1,
    loads: 2,
    stores: 1,
    branches: 1,
};

const LATENCIES: Latencies = Latencies {
    mul: 3,
    div: 20,
    l1: 2,
    l2: 10,
    mem: 100,
    tlb: 30,
};

fn geometry(line_log: u8, sets_log: u8, ways: u8) -> Result<Geometry, Fail> {
    Ok(Geometry::new(line_log, sets_log, ways).ok_or("no such geometry")?)
}

fn places() -> Result<Places<Geometry>, Fail> {
    Ok(Places {
        l1i: geometry(6, 6, 4)?,
        l1d: geometry(6, 6, 4)?,
        l2: geometry(6, 9, 8)?,
        itlb: geometry(12, 3, 4)?,
        dtlb: geometry(12, 4, 4)?,
    })
}

fn header(kind: PredictorKind) -> Result<Header, Fail>
    ensures design { IfOk result (λ header. IsUsable header.design) }
    ensures kinds { IfOk result (λ header. header.records.kinds ≡ kind ∷ []) }
    ensures points { IfOk result (λ header. header.points ≡ 1) }
{
    Ok(Header {
        version: 2,
        length: 16,
        points: 1,
        design: DESIGN,
        heap_low: 0x0002_0000,
        records: Records {
            places: places()?,
            kinds: Kinds::one(kind),
        },
    })
}

fn config(ruu: bool) -> Result<Config, Fail> {
    Ok(Config {
        ruu,
        places: places()?,
        kind: KIND,
        widths: WIDTHS,
        latencies: LATENCIES,
    })
}

fn snapshot(alloc: Global, geometry: Geometry) -> Result<Snapshot, Fail>
    ensures { IfOk result (λ snapshot. snapshot.shape ≡ geometry) }
{
    Ok(Record::new(alloc, geometry)?.snapshot()?)
}

fn images(alloc: Global, kind: PredictorKind) -> Result<Images, Fail>
    requires { IsKind kind }
    ensures { IfOk result (λ images. map (λ image. image.kind) images ≡ kind ∷ []) }
{
    let mut images = Vec::new(alloc);
    images.push(Predictor::new(alloc, kind)?.image()?)?;
    Ok(Images::from_list(images))
}

/// The first unit's point of a program of these words, before which there was no instruction.
fn point(
    alloc: Global,
    header: &Header,
    kind: PredictorKind,
    pairs: &[(u32, u32)],
) -> Result<LivePoint, Fail>
    requires design { IsUsable header.now.design }
    requires kind { IsKind kind }
    requires kinds { header.now.records.kinds ≡ kind ∷ [] }
    ensures { (config : ConfigValue) → IfOk result (λ point. IsTaken (record { header = header.now; config = config }) point) }
{
    let Ok(words) = Words::from_pairs(alloc, pairs) else {
        return Err("no such words".into());
    };
    if words.len() > 2 * header.design.window(0).len as usize {
        return Err("too many words".into());
    }
    let large = &header.records.places;
    Ok(LivePoint {
        unit: 0,
        pc: 0x0001_0054,
        regs: [0; 32],
        brk: header.heap_low,
        words,
        places: Places {
            l1i: snapshot(alloc, large.l1i)?,
            l1d: snapshot(alloc, large.l1d)?,
            l2: snapshot(alloc, large.l2)?,
            itlb: snapshot(alloc, large.itlb)?,
            dtlb: snapshot(alloc, large.dtlb)?,
        },
        images: images(alloc, kind)?,
    })
}

fn is_served(header: &Header, config: &Config) -> Result<(), Fail>
    requires { IsUsable header.now.design }
    ensures { IfOk result (λ _. IsServed (record { header = header.now; config = config.now })) }
{
    if let Some(_fault) = config.check() {
        return Err("no such processor".into());
    }
    if let Some(_structure) = within(header, config) {
        return Err("records that don't serve".into());
    }
    Ok(())
}

/// What a desk answers twice.
fn answers(alloc: Global, ruu: bool, pairs: &[(u32, u32)]) -> Result<[Answer; 2], Fail> {
    let header = header(KIND)?;
    let config = config(ruu)?;
    is_served(&header, &config)?;
    let point = point(alloc, &header, KIND, pairs)?;
    let mut desk = Desk::new(alloc, &header, &config)?;
    Ok([desk.window(&point), desk.window(&point)])
}

/// A program, the fault that its window has, and where.
const FAULTS: [(&[(u32, u32)], PointKind, u32); 8] = [
    (
        &[(0x0001_0054, 0xFFFF_FFFF)],
        PointKind::Illegal,
        0x0001_0054,
    ),
    // jalr x0, 2(x0)
    (
        &[(0x0001_0054, 0x0020_0067)],
        PointKind::BadTarget,
        0x0001_0054,
    ),
    // lw x6, 1(x0)
    (
        &[(0x0001_0054, 0x0010_2303)],
        PointKind::MisalignedLoad,
        0x0001_0054,
    ),
    // sw x0, 1(x0)
    (
        &[(0x0001_0054, 0x0000_20A3)],
        PointKind::MisalignedStore,
        0x0001_0054,
    ),
    // lw x6, 0(x0), and an instruction behind which there is none
    (
        &[(0x0001_0054, 0x0000_2303)],
        PointKind::Missing,
        0x0001_0054,
    ),
    (
        &[(0x0001_0054, 0x0000_0013)],
        PointKind::Missing,
        0x0001_0058,
    ),
    (&[(0x0001_0054, 0x0010_0073)], PointKind::Break, 0x0001_0054),
    // exit with 0
    (
        &[
            (0x0001_0054, 0x0000_0513),
            (0x0001_0058, 0x05D0_0893),
            (0x0001_005C, 0x0000_0073),
        ],
        PointKind::AfterExit,
        0x0001_0060,
    ),
];

#[test]
fn tells_each_fault(rt: HostRuntime) -> Result<(), Fail> {
    for (pairs, kind, pc) in FAULTS {
        let fault = Answer::Fault(PointFault { kind, pc });
        assert_eq!(rt; answers(rt.alloc(), true, pairs)?, [fault, fault]);
    }
    Ok(())
}

/// Thirteen instructions that do nothing, and an exit with 0.
const IDLE: [(u32, u32); 16] = [
    (0x0001_0054, 0x0000_0013),
    (0x0001_0058, 0x0000_0013),
    (0x0001_005C, 0x0000_0013),
    (0x0001_0060, 0x0000_0013),
    (0x0001_0064, 0x0000_0013),
    (0x0001_0068, 0x0000_0013),
    (0x0001_006C, 0x0000_0013),
    (0x0001_0070, 0x0000_0013),
    (0x0001_0074, 0x0000_0013),
    (0x0001_0078, 0x0000_0013),
    (0x0001_007C, 0x0000_0013),
    (0x0001_0080, 0x0000_0013),
    (0x0001_0084, 0x0000_0013),
    (0x0001_0088, 0x0000_0513),
    (0x0001_008C, 0x05D0_0893),
    (0x0001_0090, 0x0000_0073),
];

/// The exit is the window's last instruction. The first fetch waits 130 cycles, that of the twelfth instruction, whose
/// line is another, 100; the exit waits for the instruction before it, which is retired in cycle 236.
#[test]
fn times_a_window(rt: HostRuntime) -> Result<(), Fail> {
    assert_eq!(rt; answers(rt.alloc(), true, &IDLE)?, [Answer::Cycles(239); 2]);
    assert_eq!(rt; answers(rt.alloc(), false, &IDLE)?, [Answer::Cycles(16); 2]);
    Ok(())
}

/// One point, and two workers.
#[test]
fn a_crew_folds_the_points(rt: HostRuntime) -> Result<(), Fail> {
    let alloc = rt.alloc();
    let header = header(KIND)?;
    let config = config(true)?;
    is_served(&header, &config)?;
    let mut points = Vec::new(alloc);
    points.push(point(alloc, &header, KIND, &IDLE)?)?;
    let test = Test {
        min: 2,
        z: 3000,
        error: 300,
    };
    let mut crew = crew(alloc, &header, &config, test, 2)?;
    crew.run_batch(&rt, alloc, &points, &OpenGate)?;
    assert_eq!(rt; crew.front().ending(), Ending::Exhausted);
    assert_eq!(rt; crew.front().sums().s1, 239);
    assert_eq!(rt; crew.windows(), 1);
    Ok(())
}
