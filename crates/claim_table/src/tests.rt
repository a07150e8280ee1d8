ghost use Rattle.std.specs.Prelude.{◌≡◌, ◌+◌, ◌<◌, ◌≤◌, None, [], ◌∷◌, length, All, IfOk, OnOk};
ghost use Rattle.confidence.specs.declared.answer.Answer.TheVariants.{Cycles};
ghost use Rattle.ordered_fold.specs.Batch.{IsHeldAnswer, IsBatch};
ghost use Rattle.claim_table.specs.Board.{list_at, IsAlone};
ghost use Rattle.claim_table.specs.Tests.Crew.{IsOne};
ghost use Rattle.claim_table.specs.Shown.{IsPassOf};

use super::*;
use confidence::{Answer, Sums, Test};
use ordered_fold::{Ending, Front};
use smarts_base::NoMemory;
use std::alloc::Global;
use std::marker::Brand;
use std::test::Fail;
use std::thread::{Threads, for_each_mut};

const TEST: Test = Test {
    min: 2,
    z: 3000,
    error: 300,
};

/// Two passes of a board of three answers: what each found, and the front at the end.
fn two_passes<L: Listed>(alloc: Global) -> Result<(Advance, Advance, Option<u32>, Front), Fail>
    requires { L.lists ≡ (Cycles 16 ∷ Cycles 16 ∷ Cycles 16 ∷ []) ∷ [] }
{
    let (board, mut first) = Board::<L>::new(alloc, 0, 3, TEST)?;
    let mut second = board.split(&mut first);
    let Claim::Point(0) = board.claim(&mut first) else {
        return Err("the first number".into());
    };
    let Claim::Point(1) = board.claim(&mut second) else {
        return Err("the second number".into());
    };
    board.report(&mut second, Answer::Cycles(16));
    let Claim::Point(2) = board.claim(&mut second) else {
        return Err("the third number".into());
    };
    board.report(&mut second, Answer::Cycles(16));
    let waits = board.advance(&mut second);
    board.report(&mut first, Answer::Cycles(16));
    let moves = board.advance(&mut first);
    let end = board.ended(&mut second);
    board.join(&mut first, second);
    if first.seen_end().is_none() {
        return Err("the end was not seen".into());
    }
    Ok((waits, moves, end, board.close(first)))
}

/// One pass that goes on from a front, with the front at the end.
fn one_pass<L: Listed>(alloc: Global, start: Front) -> Result<(Advance, Front), Fail>
    requires lists { L.lists ≡ (Cycles 16 ∷ []) ∷ [] }
    requires batch { IsBatch start (Cycles 16 ∷ []) }
{
    let (board, mut pass) = Board::<L>::resume(alloc, 0, start, 1)?;
    let Claim::Point(0) = board.claim(&mut pass) else {
        return Err("the first number".into());
    };
    board.report(&mut pass, Answer::Cycles(16));
    let moves = board.advance(&mut pass);
    if board.ended(&mut pass).is_none() {
        return Err("the end was not announced".into());
    }
    Ok((moves, board.close(pass)))
}

#[test]
fn passes_share_a_fold(rt: HostRuntime) -> Result<(), Fail> {
    let (waits, moves, end, front) = two_passes::<Brand>(rt.alloc())?;
    assert_eq!(rt; waits, Advance::Moved(Ending::Going));
    assert_eq!(rt; moves, Advance::Moved(Ending::Stopped { count: 2 }));
    assert_eq!(rt; end, Some(2));
    assert_eq!(rt; front.ending(), Ending::Stopped { count: 2 });
    let sums = Sums {
        n: 2,
        s1: 32,
        s2: 512,
    };
    assert_eq!(rt; front.sums(), sums);
    Ok(())
}

#[test]
fn a_pass_goes_on_from_a_front(rt: HostRuntime) -> Result<(), Fail> {
    let mut start = Front::new(4, TEST);
    start.push(Answer::Cycles(16));
    assert_eq!(rt; start.ending(), Ending::Going);
    let (moves, front) = one_pass::<Brand>(rt.alloc(), start)?;
    assert_eq!(rt; moves, Advance::Moved(Ending::Stopped { count: 2 }));
    assert_eq!(rt; front.count(), 2);
    Ok(())
}

/// One turn of a worker: it stops where it is past or sees an end, and else draws, reports and folds.
fn turn<L: Listed>(board: &Board<L>, pass: &mut Pass<L>, answers: &[Answer])
    requires pass { IsPassOf board.now pass.old }
    requires hand { pass.old.view.seat.hand ≡ None }
    requires listed { answers.now ≡ list_at L.lists board.now.which }
    ensures pass { IsPassOf board.now pass.new }
    ensures hand { pass.new.view.seat.hand ≡ None }
    ensures spare { pass.new.view.spare ≡ pass.old.view.spare }
    ensures merged { pass.new.view.merged ≡ pass.old.view.merged }
{
    if pass.past() || pass.seen_end().is_some() || board.ended(pass).is_some() {
        return;
    }
    if let Claim::Point(k) = board.claim(pass) {
        let _size = board.size();
        let answer = answers[k as usize];
        board.report(pass, answer);
        board.advance(pass);
    }
}

/// As many passes more, split off the first.
fn crew_of<L: Listed>(
    alloc: Global,
    board: &Board<L>,
    first: &mut Pass<L>,
    count: usize,
) -> Result<Vec<Pass<L>>, NoMemory>
    requires pass { IsPassOf board.now first.old }
    requires hand { first.old.view.seat.hand ≡ None }
    requires spare { count ≤ first.old.view.spare }
    ensures pass { IsPassOf board.now first.new }
    ensures hand { first.new.view.seat.hand ≡ None }
    ensures spare { OnOk result (first.new.view.spare + count ≡ first.old.view.spare) }
    ensures merged { first.new.view.merged ≡ first.old.view.merged }
    ensures crew { IfOk result (λ crew. (length crew.items ≡ count) × All (IsOne board.now) crew.items) }
{
    let mut crew = Vec::with_capacity(alloc, count)?;
    for _pass in 0..count {
        crew.push_reserved(board.split(first));
    }
    Ok(crew)
}

/// The first pass takes over what all others know.
fn join_all<L: Listed>(board: &Board<L>, first: &mut Pass<L>, mut crew: Vec<Pass<L>>)
    requires pass { IsPassOf board.now first.old }
    requires hand { first.old.view.seat.hand ≡ None }
    requires crew { All (IsOne board.now) crew.items }
    requires all { first.old.view.spare + first.old.view.merged + length crew.items ≡ 65 }
    ensures pass { IsPassOf board.now first.new }
    ensures hand { first.new.view.seat.hand ≡ None }
    ensures alone { IsAlone first.new.view }
{
    while !crew.is_empty() {
        let pass = crew.swap_remove(0);
        board.join(first, pass);
    }
}

/// As many turns as there are answers, and one more.
fn turns<L: Listed>(board: &Board<L>, pass: &mut Pass<L>, answers: &[Answer])
    requires pass { IsOne board.now pass.old }
    requires listed { answers.now ≡ list_at L.lists board.now.which }
    ensures { IsOne board.now pass.new }
{
    for _turn in 0..=answers.len() {
        turn(board, pass, answers);
    }
}

/// Each pass does its turns, in a thread of its own where one can be made.
fn run_crew<L: Listed + Send, R: Threads + Sync>(
    rt: &R,
    board: &Board<L>,
    crew: &mut [Pass<L>],
    threads: usize,
    answers: &[Answer],
)
    requires threads { 0 < threads }
    requires crew { All (IsOne board.now) crew.old }
    requires listed { answers.now ≡ list_at L.lists board.now.which }
    ensures crew { All (IsOne board.now) crew.new }
    ensures long { length crew.new ≡ length crew.old }
{
    for_each_mut(
        rt,
        crew,
        threads,
        &|_, pass: &mut Pass<L>|
            requires { IsOne board.now pass.now × (answers.now ≡ list_at L.lists board.now.which) }
            ensures { IsOne board.entry.now pass.exit.now }
        { turns(board, pass, answers) },
    );
}

/// The front that so many passes make of a list, each in a thread of its own where one can be made.
fn shared_by<L: Listed + Send, R: Threads + Sync>(
    rt: &R,
    alloc: Global,
    answers: &[Answer],
    passes: usize,
) -> Result<Front, Fail>
    requires listed { L.lists ≡ answers.now ∷ [] }
    requires some { 0 < length answers.now }
    requires most { length answers.now ≤ 65536 }
    requires held { All IsHeldAnswer answers.now }
    requires passes { (0 < passes) × (passes ≤ 64) }
{
    let (board, mut first) = Board::<L>::new(alloc, 0, answers.len() as u32, TEST)?;
    let mut crew = crew_of(alloc, &board, &mut first, passes)?;
    run_crew(rt, &board, &mut crew, passes, answers);
    join_all(&board, &mut first, crew);
    if !first.past() && first.seen_end().is_none() {
        return Err("no pass saw the end".into());
    }
    Ok(board.close(first))
}

/// Ten answers far apart, and 490 between them.
fn scattered(alloc: Global) -> Result<Vec<Answer>, NoMemory>
    ensures long { IfOk result (λ answers. length answers.items ≡ 500) }
    ensures held { IfOk result (λ answers. All IsHeldAnswer answers.items) }
{
    let mut answers = Vec::new(alloc);
    for k in 0..500u32 {
        let cycles = if k >= 10 {
            505
        } else if k % 2 == 0 {
            10
        } else {
            1000
        };
        answers.push(Answer::Cycles(cycles))?;
    }
    Ok(answers)
}

#[test]
fn threads_make_one_fold(rt: HostRuntime) -> Result<(), Fail> {
    let alloc = rt.alloc();
    let answers = scattered(alloc)?;
    for passes in [1, 2, 8, 64] {
        let front = shared_by::<Brand, HostRuntime>(&rt, alloc, &answers, passes)?;
        assert_eq!(rt;
            front.ending(),
            Ending::Stopped { count: 311 },
            "{passes} passes"
        );
        let sums = Sums {
            n: 311,
            s1: 157_055,
            s2: 81_763_025,
        };
        assert_eq!(rt; front.sums(), sums, "{passes} passes");
    }
    Ok(())
}
