use hierarchy::{Config, Latencies, Places, Widths};
use lru_plain::Geometry;
use predictor::{PredictorKind, Scheme};
use std::test::Fail;

/// The geometry of a test, which there is.
fn shape(line_log: u8, sets_log: u8, ways: u8) -> Result<Geometry, Fail> {
    match Geometry::new(line_log, sets_log, ways) {
        Some(geometry) => Ok(geometry),
        None => Err(Fail::new("there is no such geometry")),
    }
}

/// The processor of the defaults.
pub fn usual_config() -> Result<Config, Fail> {
    Ok(Config {
        ruu: true,
        places: Places {
            l1i: shape(6, 6, 4)?,
            l1d: shape(6, 6, 4)?,
            l2: shape(6, 9, 8)?,
            itlb: shape(12, 3, 4)?,
            dtlb: shape(12, 4, 4)?,
        },
        kind: PredictorKind {
            scheme: Scheme::Gshare,
            bits: 12,
            target_log: 9,
            depth: 8,
        },
        widths: Widths {
            fetch: 4,
            dispatch: 4,
            issue: 4,
            retire: 4,
            queue: 8,
            ruu: 32,
            lsq: 16,
            penalty: 6,
            forward: 1,
            alus: 4,
            muls: 1,
            divs: 1,
            loads: 2,
            stores: 1,
            branches: 1,
        },
        latencies: Latencies {
            mul: 3,
            div: 20,
            l1: 2,
            l2: 10,
            mem: 100,
            tlb: 30,
        },
    })
}

/// That of the least numbers and the smallest shapes.
pub fn least_config() -> Result<Config, Fail> {
    Ok(Config {
        ruu: false,
        places: Places {
            l1i: shape(4, 0, 1)?,
            l1d: shape(5, 1, 1)?,
            l2: shape(6, 2, 1)?,
            itlb: shape(12, 3, 1)?,
            dtlb: shape(12, 4, 1)?,
        },
        kind: PredictorKind {
            scheme: Scheme::Bimodal,
            bits: 4,
            target_log: 2,
            depth: 0,
        },
        widths: Widths {
            fetch: 1,
            dispatch: 1,
            issue: 1,
            retire: 1,
            queue: 1,
            ruu: 4,
            lsq: 2,
            penalty: 1,
            forward: 1,
            alus: 1,
            muls: 1,
            divs: 1,
            loads: 1,
            stores: 1,
            branches: 1,
        },
        latencies: Latencies {
            mul: 1,
            div: 1,
            l1: 1,
            l2: 1,
            mem: 1,
            tlb: 0,
        },
    })
}

/// That of the greatest.
pub fn most_config() -> Result<Config, Fail> {
    Ok(Config {
        ruu: true,
        places: Places {
            l1i: shape(4, 8, 12)?,
            l1d: shape(7, 9, 13)?,
            l2: shape(8, 10, 14)?,
            itlb: shape(12, 11, 15)?,
            dtlb: shape(12, 12, 16)?,
        },
        kind: PredictorKind {
            scheme: Scheme::Gshare,
            bits: 14,
            target_log: 10,
            depth: 16,
        },
        widths: Widths {
            fetch: 5,
            dispatch: 6,
            issue: 7,
            retire: 8,
            queue: 32,
            ruu: 256,
            lsq: 128,
            penalty: 64,
            forward: 16,
            alus: 2,
            muls: 3,
            divs: 4,
            loads: 5,
            stores: 6,
            branches: 7,
        },
        latencies: Latencies {
            mul: 16,
            div: 64,
            l1: 16,
            l2: 100,
            mem: 1000,
            tlb: 200,
        },
    })
}
