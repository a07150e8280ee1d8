use super::*;
use confidence::{Answer, PointFault, PointKind, Sums, Test};
use smarts_base::{Draws, NoMemory};
use std::alloc::Global;
use std::test::Fail;

const TEST: Test = Test {
    min: 2,
    z: 3000,
    error: 300,
};

fn event(seat: u32, act: Act) -> CoreEvent {
    CoreEvent { seat, act }
}

#[test]
fn draws_and_reports(rt: HostRuntime) -> Result<(), Fail> {
    let answers = [Answer::Cycles(16), Answer::Cycles(16), Answer::Cycles(16)];
    let events = [
        event(0, Act::Split { into: 1 }),
        event(0, Act::Claim),
        event(1, Act::Claim),
        event(1, Act::Report),
        event(0, Act::Report),
    ];
    let state = core_run(rt.alloc(), &answers, TEST, 2, &events)?;
    assert_eq!(rt; (state.claim(), state.lock(), state.stop()), (2, 0, 0));
    assert_eq!(rt;
        [state.cell(0), state.cell(1), state.cell(2), state.cell(3)],
        [16, 16, 0, 0]
    );
    assert_eq!(rt; state.home().map(Front::count), Some(0));
    let seat = state.seat(1);
    assert_eq!(rt; (seat.hand, seat.last, seat.past), (None, Some(1), false));
    Ok(())
}

#[test]
fn folds_in_order_not_by_arrival(rt: HostRuntime) -> Result<(), Fail> {
    let answers = [Answer::Cycles(16), Answer::Cycles(16), Answer::Cycles(16)];
    // the second seat reports two answers, and the first cell is still empty when it folds
    let second_folds = [
        event(0, Act::Split { into: 1 }),
        event(0, Act::Claim),
        event(1, Act::Claim),
        event(1, Act::Report),
        event(1, Act::Claim),
        event(1, Act::Report),
        event(1, Act::Try),
        event(1, Act::Glance),
        event(1, Act::Release),
    ];
    let mut state = core_run(rt.alloc(), &answers, TEST, 2, &second_folds)?;
    assert_eq!(rt; state.home().map(Front::count), Some(0));
    let first_folds = [
        event(0, Act::Report),
        event(0, Act::Try),
        event(0, Act::Glance),
        event(0, Act::Glance),
        event(0, Act::Announce),
        event(0, Act::Release),
        event(1, Act::Look),
        event(0, Act::Join { from: 1 }),
    ];
    state.run(&first_folds);
    assert_eq!(rt; state.front().ending(), Ending::Stopped { count: 2 });
    let sums = Sums {
        n: 2,
        s1: 32,
        s2: 512,
    };
    assert_eq!(rt; state.front().sums(), sums);
    assert_eq!(rt;
        (state.seat(0).seen_end, state.seat(1).live),
        (Some(2), false)
    );
    Ok(())
}

#[test]
fn goes_on_from_a_front(rt: HostRuntime) -> Result<(), Fail> {
    let mut front = Front::new(4, TEST);
    front.push(Answer::Cycles(16));
    assert_eq!(rt; front.ending(), Ending::Going);
    let mut state = CoreState::resume(rt.alloc(), front, &[Answer::Cycles(16)], 1)?;
    let acts = [
        Act::Claim,
        Act::Report,
        Act::Try,
        Act::Glance,
        Act::Announce,
    ];
    for act in acts {
        core_step(&mut state, event(0, act));
    }
    assert_eq!(rt; state.home(), None);
    core_step(&mut state, event(0, Act::Release));
    assert_eq!(rt;
        state.home().map(Front::ending),
        Some(Ending::Stopped { count: 2 })
    );
    assert_eq!(rt; (state.claim(), state.lock(), state.stop()), (1, 2, 3));
    Ok(())
}

/// How many seats the drawn events are for; one seat more is named than there is.
const SEATS: u32 = 4;

/// How many events a drawn run has.
const EVENTS: u32 = 1000;

fn drawn_event(draws: &mut Draws) -> CoreEvent {
    let seat = draws.draw() % (SEATS + 1);
    let other = draws.draw() % (SEATS + 1);
    let act = match draws.draw() % 36 {
        0..=6 => Act::Claim,
        7..=13 => Act::Report,
        14..=20 => Act::Glance,
        21..=25 => Act::Try,
        26 => Act::Announce,
        27..=32 => Act::Release,
        33 => Act::Look,
        34 => Act::Split { into: other },
        _ => Act::Join { from: other },
    };
    event(seat, act)
}

/// The fronts after 0, 1, .. answers, as one seat makes them that does all in order.
fn fronts_in_order(
    alloc: Global,
    one: &mut CoreState,
    count: usize,
) -> Result<Vec<Front>, NoMemory> {
    let mut fronts = vec![in alloc; *one.front(); 1]?;
    for _answer in 0..count {
        for act in [Act::Claim, Act::Report, Act::Try, Act::Glance, Act::Release] {
            core_step(one, event(0, act));
        }
        fronts.push(*one.front())?;
    }
    Ok(fronts)
}

/// Whether the cell of answer `k` and the seats' hands agree.
fn is_cell(state: &CoreState, seats: &[Seat], k: u32, code: u64) -> bool {
    let cell = state.cell(k);
    let mut hands = 0u32;
    for seat in seats {
        if seat.live && seat.hand == Some(k) {
            hands = hands.wrapping_add(1);
        }
    }
    if cell != 0 {
        cell == code && u64::from(k) < state.claim() && hands == 0
    } else {
        hands == u32::from(u64::from(k) < state.claim())
    }
}

/// Whether a seat keeps what each seat keeps.
fn is_seat(state: &CoreState, seat: &Seat, size: u64) -> bool {
    if !seat.live {
        return !seat.holder;
    }
    seat.made
        && seat.last.is_none_or(|last| last < state.claim())
        && seat
            .hand
            .is_none_or(|hand| seat.last == Some(u64::from(hand)))
        && !(seat.holder && seat.hand.is_some())
        && (!seat.past || size <= state.claim())
        && seat
            .seen_end
            .is_none_or(|end| state.stop() == u64::from(end) + 1)
}

/// Whether the words and the front agree, where `holders` seats hold and `done` draw no more.
fn are_words(state: &CoreState, fronts: &[Front], holders: u64, done: u64) -> bool {
    let size = (fronts.len() as u64).wrapping_sub(1);
    let before = fronts.first().map_or(0, |first| u64::from(first.count()));
    let end = fronts.last().map_or(0, |last| u64::from(last.count()));
    let folded = state.front().pushed().wrapping_sub(before);
    let place = u32::try_from(folded).unwrap_or(u32::MAX);
    let lock_fits = if holders == 0 {
        state.lock() == folded.wrapping_mul(2)
    } else {
        state.lock() / 2 <= folded
    };
    fronts.get(place as usize) == Some(state.front())
        && (0..place).all(|k| state.cell(k) != 0)
        && holders <= 1
        && state.lock() % 2 == holders
        && lock_fits
        && state.home().is_some() == (holders == 0)
        && (state.stop() == 0 || (state.stop() == end + 1 && !state.front().is_going()))
        && state.claim() <= size.wrapping_add(done)
}

/// Whether the state keeps all that the machine keeps.
fn is_core(state: &CoreState, codes: &[u64], fronts: &[Front]) -> bool {
    let seats = [state.seat(0), state.seat(1), state.seat(2), state.seat(3)];
    let (mut holders, mut done, mut latest) = (0u64, 0u64, None);
    for seat in &seats {
        holders = holders.wrapping_add(u64::from(seat.holder));
        done = done.wrapping_add(u64::from(seat.made && (seat.past || !seat.live)));
        if seat.live && seat.last > latest {
            latest = seat.last;
        }
    }
    let mut k = 0u32;
    for code in codes {
        if !is_cell(state, &seats, k, *code) {
            return false;
        }
        k = k.wrapping_add(1);
    }
    latest == state.claim().checked_sub(1)
        && seats
            .iter()
            .all(|seat| is_seat(state, seat, codes.len() as u64))
        && are_words(state, fronts, holders, done)
}

/// The number of the first drawn event after which something doesn't hold, and how the fold stands then.
fn first_broken(
    alloc: Global,
    state: &mut CoreState,
    one: &mut CoreState,
    codes: &[u64],
    seed: u64,
) -> Result<(Option<u32>, Ending), NoMemory> {
    let fronts = fronts_in_order(alloc, one, codes.len())?;
    let mut draws = Draws { state: seed };
    for number in 0..EVENTS {
        let event = drawn_event(&mut draws);
        core_step(state, event);
        if !is_core(state, codes, &fronts) {
            return Ok((Some(number), state.front().ending()));
        }
    }
    Ok((None, state.front().ending()))
}

#[test]
fn keeps_the_invariant_whatever_comes(rt: HostRuntime) -> Result<(), Fail> {
    let alloc = rt.alloc();
    let fault = PointFault {
        kind: PointKind::Missing,
        pc: 65_620,
    };
    let stops = [
        Answer::Cycles(10),
        Answer::Cycles(30),
        Answer::Cycles(20),
        Answer::Cycles(20),
        Answer::Cycles(20),
        Answer::Cycles(20),
    ];
    let faults = [
        Answer::Cycles(10),
        Answer::Cycles(30),
        Answer::Fault(fault),
        Answer::Cycles(20),
    ];
    let exhausts = [Answer::Cycles(10), Answer::Cycles(300), Answer::Cycles(20)];
    let test = Test {
        min: 2,
        z: 2000,
        error: 3200,
    };
    for seed in 0..4u64 {
        let mut state = CoreState::new(alloc, &stops, test, SEATS)?;
        let mut one = CoreState::new(alloc, &stops, test, 1)?;
        let codes = [10, 30, 20, 20, 20, 20];
        let (broken, ending) = first_broken(alloc, &mut state, &mut one, &codes, seed)?;
        assert_eq!(rt; broken, None, "stops, seed {seed}");
        assert_eq!(rt; ending, Ending::Stopped { count: 5 }, "seed {seed}");

        let mut state = CoreState::new(alloc, &faults, test, SEATS)?;
        let mut one = CoreState::new(alloc, &faults, test, 1)?;
        let codes = [10, 30, 5 * (1 << 32) + 65_620, 20];
        let (broken, ending) = first_broken(alloc, &mut state, &mut one, &codes, seed)?;
        assert_eq!(rt; broken, None, "faults, seed {seed}");
        assert_eq!(rt; ending, Ending::Faulted { point: 2, fault }, "seed {seed}");

        let mut state = CoreState::new(alloc, &exhausts, test, SEATS)?;
        let mut one = CoreState::new(alloc, &exhausts, test, 1)?;
        let (broken, ending) = first_broken(alloc, &mut state, &mut one, &[10, 300, 20], seed)?;
        assert_eq!(rt; broken, None, "is exhausted, seed {seed}");
        assert_eq!(rt; ending, Ending::Exhausted, "seed {seed}");
    }
    Ok(())
}
