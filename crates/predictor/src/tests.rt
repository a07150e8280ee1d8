ghost use Rattle.std.specs.Prelude.{◌≡◌, ◌%◌, ◌≤◌};
ghost use Rattle.predictor.specs.Kind.{IsKind};

use super::*;
use rv_exec::{Event, Flow};
use rv_isa::Class;
use smarts_base::{NoMemory, Refusal};
use std::alloc::Global;
use std::process::Abort;
use std::test::Fail;

const TAKEN: Flow = Flow::Branch { taken: true };

const NOT_TAKEN: Flow = Flow::Branch { taken: false };

const CALL: Flow = Flow::Jal { push: true };

const RETURN: Flow = Flow::Jalr {
    pop: true,
    push: false,
};

const JUMP: Flow = Flow::Jalr {
    pop: false,
    push: false,
};

const JUMP_AND_LINK: Flow = Flow::Jalr {
    pop: false,
    push: true,
};

const SWAP: Flow = Flow::Jalr {
    pop: true,
    push: true,
};

/// 16 counters and 4 target entries.
fn small(scheme: Scheme, depth: u8) -> PredictorKind
    ensures kind { IsKind result }
    ensures bits { result.bits ≡ 4 }
    ensures target_log { result.target_log ≡ 2 }
    ensures depth { depth ≤ 16 → result.depth ≡ depth }
{
    PredictorKind {
        scheme,
        bits: 4,
        target_log: 2,
        depth: depth.min(16),
    }
}

/// An event at this pc; instructions stand at multiples of 4.
fn event(pc: u32, control: Flow, next: u32) -> Event
    ensures pc { result.pc % 4 ≡ 0 }
    ensures next { result.next % 4 ≡ 0 }
{
    Event {
        pc: pc / 4 * 4,
        fetched: 0,
        class: Class::Control,
        first: None,
        second: None,
        dest: None,
        access: None,
        control,
        next: next / 4 * 4,
        wrote: None,
    }
}

/// Gives the predictor events, by their pc, flow and next address, and compares whether each was
/// mispredicted.
fn observe_all(rt: &impl Abort, predictor: &mut Predictor, events: &[(u32, Flow, u32, bool)]) {
    for (pc, control, next, missed) in events {
        let told = predictor.observe(&event(*pc, *control, *next));
        assert_eq!(rt; told, *missed, "{control:?} at {pc:#x}");
    }
}

/// A predictor that was given the image's parts, through an image of its own.
fn reloaded(alloc: Global, image: &PredictorImage) -> Result<Predictor, Fail> {
    let kind = image.kind();
    let (counters, history) = (image.counters(), image.history());
    let (targets, stack) = (image.targets(), image.stack());
    let copy = PredictorImage::from_parts(alloc, kind, counters, history, targets, stack)?;
    let mut predictor = Predictor::new(alloc, copy.kind())?;
    predictor.load(&copy);
    Ok(predictor)
}

/// Scheme, events, and then the counters and the history.
const BRANCHES: [(Scheme, &[(u32, Flow, u32, bool)], &[u8], u32); 3] = [
    // A counter stops at 0 and at 3.
    (
        Scheme::Bimodal,
        &[
            (0x1000, NOT_TAKEN, 0x1004, false),
            (0x1000, NOT_TAKEN, 0x1004, false),
            (0x1000, TAKEN, 0x1100, true),
            (0x1000, TAKEN, 0x1100, true),
            (0x1000, TAKEN, 0x1100, false),
            (0x1000, TAKEN, 0x1100, false),
            (0x1000, NOT_TAKEN, 0x1004, true),
            (0x1000, NOT_TAKEN, 0x1004, true),
            (0x1000, NOT_TAKEN, 0x1004, false),
        ],
        &[0, 1, 1, 1, 1, 1, 1, 1, 1, 1, 1, 1, 1, 1, 1, 1],
        0,
    ),
    // Branches 64 bytes apart share a counter, and where a branch goes doesn't matter.
    (
        Scheme::Bimodal,
        &[
            (0x1004, TAKEN, 0x2000, true),
            (0x1044, TAKEN, 0x3000, false),
            (0xFFFF_FFFC, TAKEN, 0, true),
        ],
        &[1, 3, 1, 1, 1, 1, 1, 1, 1, 1, 1, 1, 1, 1, 1, 2],
        0,
    ),
    // The history is used as it was before the branch, and has four outcomes.
    (
        Scheme::Gshare,
        &[
            (0x1000, TAKEN, 0x1100, true),
            (0x1000, TAKEN, 0x1100, true),
            (0x1000, TAKEN, 0x1100, true),
            (0x1000, TAKEN, 0x1100, true),
            (0x1000, TAKEN, 0x1100, true),
            (0x1000, TAKEN, 0x1100, false),
            (0x1000, NOT_TAKEN, 0x1004, true),
            (0x1000, NOT_TAKEN, 0x1004, false),
            (0x1004, TAKEN, 0x1100, true),
        ],
        &[2, 2, 1, 2, 1, 1, 1, 2, 1, 1, 1, 1, 1, 2, 0, 2],
        9,
    ),
];

#[test]
fn branches(rt: HostRuntime) -> Result<(), Fail> {
    for (scheme, events, counters, history) in BRANCHES {
        let mut predictor = Predictor::new(rt.alloc(), small(scheme, 0))?;
        observe_all(&rt, &mut predictor, events);
        let image = predictor.image()?;
        assert_eq!(rt; image.counters(), counters);
        assert_eq!(rt; image.history(), history);
    }
    Ok(())
}

/// Depth, events, and then the stack.
const RETURNS: [(u8, &[(u32, Flow, u32, bool)], &[u32]); 4] = [
    // Nothing is on an empty stack, and a full one loses its bottom.
    (
        2,
        &[
            (0x2000, RETURN, 0x1004, true),
            (0x1000, CALL, 0x2000, false),
            (0x2000, Flow::Jal { push: false }, 0x2010, false),
            (0x2010, RETURN, 0x1004, false),
            (0x1000, CALL, 0x2000, false),
            (0x1010, CALL, 0x2000, false),
            (0x1020, CALL, 0x2000, false),
            (0x2000, RETURN, 0x1020, true),
            (0x2000, RETURN, 0x1014, false),
            (0x2000, RETURN, 0x1004, true),
        ],
        &[],
    ),
    // The address behind the last instruction is 0.
    (
        2,
        &[
            (0xFFFF_FFFC, CALL, 0x2000, false),
            (0x1000, CALL, 0x2000, false),
        ],
        &[0, 0x1004],
    ),
    // The pop comes before the push.
    (
        1,
        &[
            (0x1000, CALL, 0x2000, false),
            (0x2000, SWAP, 0x1004, false),
            (0x1004, SWAP, 0x2000, true),
        ],
        &[0x1008],
    ),
    // A stack without room stays empty.
    (
        0,
        &[
            (0x1000, CALL, 0x2000, false),
            (0x2000, RETURN, 0x1004, true),
            (0x2000, SWAP, 0x1004, true),
        ],
        &[],
    ),
];

#[test]
fn returns(rt: HostRuntime) -> Result<(), Fail> {
    for (depth, events, stack) in RETURNS {
        let mut predictor = Predictor::new(rt.alloc(), small(Scheme::Gshare, depth))?;
        observe_all(&rt, &mut predictor, events);
        assert_eq!(rt; predictor.image()?.stack(), stack);
    }
    Ok(())
}

/// An entry is of one pc and one target, and a return doesn't use it. A jump that only pushes does. A
/// predictor that loads the image goes on in the same way.
#[test]
fn indirect_jumps(rt: HostRuntime) -> Result<(), Fail> {
    let mut predictor = Predictor::new(rt.alloc(), small(Scheme::Bimodal, 2))?;
    let events = [
        (0x2000, JUMP, 0x3000, true),
        (0x2000, JUMP, 0x3000, false),
        (0x2000, JUMP, 0x3004, true),
        (0x2010, JUMP, 0x3004, true),
        (0x2000, JUMP, 0x3004, true),
        (0x200C, JUMP, 0, true),
        (0x2000, RETURN, 0x3004, true),
        (0x2008, RETURN, 0x3004, true),
        (0x1004, JUMP_AND_LINK, 0x5000, true),
        (0x1004, JUMP_AND_LINK, 0x5000, false),
        (0x3000, Flow::Straight, 0x3004, false),
    ];
    observe_all(&rt, &mut predictor, &events);
    let image = predictor.image()?;
    let targets = [(0x2000, 0x3004), (0x1004, 0x5000), (1, 0), (0x200C, 0)];
    assert_eq!(rt; image.targets(), targets.as_slice());
    assert_eq!(rt; image.stack(), [0x1008, 0x1008].as_slice());
    let mut other = reloaded(rt.alloc(), &image)?;
    let more = [
        (0x2000, JUMP, 0x3004, false),
        (0x5000, RETURN, 0x1008, false),
    ];
    observe_all(&rt, &mut other, &more);
    assert_eq!(rt; other.image()?.stack(), [0x1008].as_slice());
    Ok(())
}

/// A loop that counts 500 down to 0 and branches back while it isn't 0: the first and the last of its
/// branches are mispredicted, no other.
#[test]
fn counted_loop(rt: HostRuntime) -> Result<(), Fail> {
    let kind = PredictorKind {
        scheme: Scheme::Bimodal,
        bits: 12,
        target_log: 9,
        depth: 8,
    };
    let mut predictor = Predictor::new(rt.alloc(), kind)?;
    for left in (0..500).rev() {
        let (control, next) = if left > 0 {
            (TAKEN, 0x1_0058)
        } else {
            (NOT_TAKEN, 0x1_0060)
        };
        let missed = predictor.observe(&event(0x1_005C, control, next));
        assert_eq!(rt; missed, left == 499 || left == 0, "with {left} left");
    }
    Ok(())
}

/// The part and place at fault of an image with this last counter, history, last entry and top.
fn fault_of(
    alloc: Global,
    scheme: Scheme,
    counter: u8,
    history: u32,
    entry: (u32, u32),
    top: u32,
) -> Result<Option<(u8, u32)>, NoMemory> {
    let kind = small(scheme, 2);
    let mut counters = [2; 16];
    counters[15] = counter;
    let mut targets = [(1, 0); 4];
    targets[3] = entry;
    let stack = [0xFFFF_FFFC, top];
    match PredictorImage::from_parts(alloc, kind, &counters, history, &targets, &stack) {
        Ok(_image) => Ok(None),
        Err(Refusal::Fault(BadPart { part, index })) => Ok(Some((part, index))),
        Err(Refusal::NoMemory) => Err(NoMemory),
    }
}

#[test]
fn parts(rt: HostRuntime) -> Result<(), Fail> {
    let cases = [
        (Scheme::Gshare, 3, 15, (0x200C, 0), 0, None),
        (Scheme::Bimodal, 0, 0, (0xFFFF_FFFC, 0xFFFF_FFFC), 4, None),
        (Scheme::Gshare, 4, 16, (2, 0), 1, Some((0, 15))),
        (Scheme::Gshare, 0, 16, (2, 0), 1, Some((1, 0))),
        (Scheme::Bimodal, 0, 1, (1, 0), 0, Some((1, 0))),
        (Scheme::Gshare, 0, 0, (1, 4), 1, Some((2, 3))),
        (Scheme::Gshare, 0, 0, (0x200E, 0), 0, Some((2, 3))),
        (Scheme::Gshare, 0, 0, (0x2008, 0), 0, Some((2, 3))),
        (Scheme::Gshare, 0, 0, (0x200C, 2), 0, Some((2, 3))),
        (Scheme::Gshare, 0, 0, (1, 0), 6, Some((3, 1))),
    ];
    for (scheme, counter, history, entry, top, wanted) in cases {
        let fault = fault_of(rt.alloc(), scheme, counter, history, entry, top)?;
        assert_eq!(rt; fault, wanted);
    }
    Ok(())
}
