use super::*;
use std::test::Fail;

const DESIGN: Design = Design {
    unit: 16,
    warm: 32,
    every: 1,
    offset: 0,
    seed: 1,
    budget: 1_000_000_000,
};

#[test]
fn checks_ranges_before_the_offset(rt: HostRuntime) {
    let cases = [
        (DESIGN, None),
        (
            Design {
                unit: 10_000,
                every: 1_000_000,
                offset: 999_999,
                ..DESIGN
            },
            None,
        ),
        (Design { unit: 15, ..DESIGN }, Some(DesignCheck::OutOfRange)),
        (
            Design {
                offset: 1,
                ..DESIGN
            },
            Some(DesignCheck::OffsetNotBelowEvery),
        ),
        (
            Design {
                offset: 1,
                budget: 0,
                ..DESIGN
            },
            Some(DesignCheck::OutOfRange),
        ),
        (
            Design {
                budget: 1 << 36,
                ..DESIGN
            },
            None,
        ),
        (
            Design {
                budget: (1 << 36) + 1,
                ..DESIGN
            },
            Some(DesignCheck::OutOfRange),
        ),
    ];
    for (design, fault) in cases {
        assert_eq!(rt; design.check(), fault);
    }
}

#[test]
fn counts_units_that_end_in_time(rt: HostRuntime) {
    let every_third = Design {
        every: 3,
        offset: 1,
        ..DESIGN
    };
    let cases = [
        (DESIGN, 1004, Ok(62)),
        (DESIGN, 16, Ok(1)),
        (DESIGN, 15, Err(UnitsFault::NoUnits { length: 15 })),
        (DESIGN, 1_048_591, Ok(65_536)),
        (
            DESIGN,
            1_056_768,
            Err(UnitsFault::TooMany { count: 66_048 }),
        ),
        (every_third, 31, Err(UnitsFault::NoUnits { length: 31 })),
        (every_third, 32, Ok(1)),
        (every_third, 79, Ok(1)),
        (every_third, 80, Ok(2)),
    ];
    for (design, length, units) in cases {
        assert_eq!(rt; design.units(length), units);
    }
}

#[test]
fn starts_windows_at_0_at_least(rt: HostRuntime) {
    let cases = [
        (
            0,
            Window {
                start: 0,
                skip: 0,
                len: 16,
            },
        ),
        (
            1,
            Window {
                start: 0,
                skip: 16,
                len: 32,
            },
        ),
        (
            2,
            Window {
                start: 0,
                skip: 32,
                len: 48,
            },
        ),
        (
            5,
            Window {
                start: 48,
                skip: 32,
                len: 48,
            },
        ),
    ];
    for (unit, window) in cases {
        assert_eq!(rt; DESIGN.window(unit), window);
    }
}

#[test]
fn visits_in_the_order_of_the_seed(rt: HostRuntime) -> Result<(), Fail> {
    let cases: [(u32, u64, &[u32]); 5] = [
        (4, 1, &[1, 3, 0, 2]),
        (1, 1, &[0]),
        (2, 1, &[1, 0]),
        (2, 0, &[0, 1]),
        (3, 1_000_000_000_000_000_000, &[2, 1, 0]),
    ];
    for (n, seed, expected) in cases {
        let order = visit_order(rt.alloc(), n, seed)?;
        assert_eq!(rt; order.len() as usize, expected.len());
        for k in 0..order.len() {
            assert_eq!(rt; Some(&order.at(k)), expected.get(k as usize));
        }
    }
    Ok(())
}

#[test]
fn orders_the_most_points(rt: HostRuntime) -> Result<(), Fail> {
    let order = visit_order(rt.alloc(), 65_536, 1)?;
    let cases = [(0, 7774), (1, 12_280), (32_768, 59_996), (65_535, 47_062)];
    for (k, point) in cases {
        assert_eq!(rt; order.at(k), point);
    }
    Ok(())
}
