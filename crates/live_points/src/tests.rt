mod passes;

use super::*;
use hierarchy::Places;
use live_words::Words;
use lru_plain::Geometry;
use predictor::{Predictor, PredictorKind, Scheme};
use recency_record::{Record, Snapshot};
use sample_design::Design;
use std::alloc::Global;
use std::test::Fail;

const BIMODAL: PredictorKind = PredictorKind {
    scheme: Scheme::Bimodal,
    bits: 4,
    target_log: 2,
    depth: 0,
};

const GSHARE: PredictorKind = PredictorKind {
    scheme: Scheme::Gshare,
    bits: 4,
    target_log: 2,
    depth: 0,
};

/// A kind is added where it isn't there and there are fewer than four.
#[test]
fn keeps_each_kind_once(rt: HostRuntime) -> Result<(), Fail> {
    let mut kinds = Kinds::one(BIMODAL);
    let cases = [
        (BIMODAL, false, 1),
        (GSHARE, true, 2),
        (BIMODAL, false, 2),
        (PredictorKind { depth: 1, ..GSHARE }, true, 3),
        (PredictorKind { bits: 5, ..GSHARE }, true, 4),
        (
            PredictorKind {
                target_log: 3,
                ..GSHARE
            },
            false,
            4,
        ),
    ];
    for (kind, added, len) in cases {
        assert_eq!(rt; kinds.add(kind), added);
        assert_eq!(rt; kinds.len(), len);
    }
    let listed: [Option<PredictorKind>; 2] = [
        kinds.as_slice().first().copied(),
        kinds.as_slice().last().copied(),
    ];
    assert_eq!(rt;
        listed,
        [Some(BIMODAL), Some(PredictorKind { bits: 5, ..GSHARE })]
    );
    Ok(())
}

/// Takes types that threads may share.
fn is_shared<T: Sync>(_: &T) -> bool {
    true
}

fn geometry(line_log: u8, sets_log: u8, ways: u8) -> Result<Geometry, Fail> {
    Ok(Geometry::new(line_log, sets_log, ways).ok_or("no such geometry")?)
}

/// Two lines of 16 bytes to each set, of which the second cache has two, and two pages.
fn shapes() -> Result<Places<Geometry>, Fail> {
    Ok(Places {
        l1i: geometry(4, 0, 2)?,
        l1d: geometry(4, 0, 2)?,
        l2: geometry(4, 1, 2)?,
        itlb: geometry(12, 0, 2)?,
        dtlb: geometry(12, 0, 2)?,
    })
}

fn snapshot(alloc: Global, geometry: Geometry) -> Result<Snapshot, Fail> {
    Ok(Record::new(alloc, geometry)?.snapshot()?)
}

fn point(alloc: Global) -> Result<LivePoint, Fail> {
    let mut images = Vec::new(alloc);
    images.push(Predictor::new(alloc, BIMODAL)?.image()?)?;
    let shapes = shapes()?;
    Ok(LivePoint {
        unit: 3,
        pc: 0x0001_0000,
        regs: [0; 32],
        brk: 0,
        words: Words::from_rising(Vec::new(alloc)),
        places: Places {
            l1i: snapshot(alloc, shapes.l1i)?,
            l1d: snapshot(alloc, shapes.l1d)?,
            l2: snapshot(alloc, shapes.l2)?,
            itlb: snapshot(alloc, shapes.itlb)?,
            dtlb: snapshot(alloc, shapes.dtlb)?,
        },
        images: Images::from_list(images),
    })
}

const DESIGN: Design = Design {
    unit: 16,
    warm: 0,
    every: 1,
    offset: 0,
    seed: 1,
    budget: 1,
};

/// Workers may share headers and points.
#[test]
fn is_shared_by_workers(rt: HostRuntime) -> Result<(), Fail> {
    let header = Header {
        version: 2,
        length: 64,
        points: 4,
        design: DESIGN,
        heap_low: 0x0002_0000,
        records: Records {
            places: shapes()?,
            kinds: Kinds::one(BIMODAL),
        },
    };
    let point = point(rt.alloc())?;
    assert!(rt; is_shared(&header) && is_shared(&header.records.kinds));
    assert!(rt; is_shared(&point) && is_shared(&point.images));
    assert_eq!(rt; (point.images.len(), point.words.len()), (1, 0));
    Ok(())
}
