use super::*;
use desk_region::Region;
use rv_exec::Memory;
use smarts_base::Refusal;
use std::alloc::Global;
use std::test::Fail;

/// Takes types that threads may share.
fn is_shared<T: Sync>(_: &T) -> bool {
    true
}

/// Words of these pairs.
fn words_of(alloc: Global, pairs: &[(u32, u32)]) -> Result<Words, Fail> {
    match Words::from_pairs(alloc, pairs) {
        Ok(words) => Ok(words),
        Err(_) => Err("no such words".into()),
    }
}

/// Pairs, and the first that can't stand in its place.
const PAIRS: [(&[(u32, u32)], Option<u32>); 7] = [
    (&[], None),
    (&[(0, 9), (4, 9), (0xFFFF_FFFC, 1)], None),
    (&[(2, 0)], Some(0)),
    (&[(4, 0), (4, 1)], Some(1)),
    (&[(8, 0), (4, 0), (6, 0)], Some(1)),
    (&[(0, 0), (4, 0), (9, 0)], Some(2)),
    (&[(0, 0), (0xFFFF_FFFF, 0)], Some(1)),
];

#[test]
fn takes_words_by_rising_address(rt: HostRuntime) -> Result<(), Fail> {
    for (pairs, bad) in PAIRS {
        match Words::from_pairs(rt.alloc(), pairs) {
            Ok(words) => {
                assert_eq!(rt; bad, None);
                assert!(rt; is_shared(&words));
                assert_eq!(rt; words.as_slice(), pairs);
                assert_eq!(rt; words.len(), pairs.len());
                for index in 0..words.len() {
                    assert_eq!(rt; Some(words.at(index)), pairs.get(index).copied());
                }
            }
            Err(Refusal::Fault(fault)) => assert_eq!(rt; Some(fault.index), bad),
            Err(Refusal::NoMemory) => return Err("no memory".into()),
        }
    }
    Ok(())
}

/// A window of sixteen instructions, of which one stores a word of the stack and one loads it again.
#[test]
fn keeps_what_is_found_first(rt: HostRuntime) -> Result<(), Fail> {
    let mut collector = Collector::new(rt.alloc())?;
    for turn in 0..16 {
        collector.touch(0x0001_0090 - 4 * turn, 100 + turn)?;
    }
    collector.touch(0x7FFF_EFFC, 0)?;
    collector.touch(0x7FFF_EFFC, 7)?;
    let words = collector.finish()?;
    assert_eq!(rt; words.len(), 17);
    assert_eq!(rt; words.as_slice().first(), Some(&(0x0001_0054, 115)));
    assert_eq!(rt; words.as_slice().last(), Some(&(0x7FFF_EFFC, 0)));
    Ok(())
}

/// What a memory holds at four addresses.
fn loaded<M: Memory>(memory: &M) -> [Option<u32>; 4]
    requires { M.sound memory.now }
{
    [
        memory.load_word(0),
        memory.load_word(4),
        memory.load_word(8),
        memory.load_word(0xFFFF_FFFC),
    ]
}

#[test]
fn holds_the_words_in_a_region(rt: HostRuntime) -> Result<(), Fail> {
    let words = words_of(rt.alloc(), &[(0, 5), (8, 6), (0xFFFF_FFFC, 7)])?;
    let mut small = Region::new(rt.alloc(), 2)?;
    assert_eq!(rt;
        (Partial::new(&mut small, &words).is_none(), small.free()),
        (true, 2)
    );

    let mut region = Region::new(rt.alloc(), 5)?;
    match Partial::new(&mut region, &words) {
        None => return Err("no room".into()),
        Some(partial) => {
            let packed = region.view_mut(partial.span());
            assert_eq!(rt; packed.first(), Some(&5));
            let mut memory = Held::over(packed);
            assert_eq!(rt; loaded(&memory), [Some(5), None, Some(6), Some(7)]);
            let stored = (memory.store_word(8, 0xFFFF_FFFF), memory.store_word(4, 1));
            assert_eq!(rt; stored, (true, false));
            assert_eq!(rt;
                loaded(&memory),
                [Some(5), None, Some(0xFFFF_FFFF), Some(7)]
            );
            assert!(rt; memory.covers(3, 0xFFFF_FFFF));
        }
    }
    Ok(())
}

/// Words, and in how many slots they are put: from as many as they are to more than twice as many.
const TABLES: [(&[(u32, u32)], usize); 8] = [
    (&[], 0),
    (&[], 1),
    (&[(0, 5)], 1),
    (&[(8, 5), (0xFFFF_FFFC, 0xFFFF_FFFF)], 2),
    (&[(0, 5), (8, 6), (0xFFFF_FFFC, 7)], 3),
    (&[(0, 5), (8, 6), (0xFFFF_FFFC, 7)], 7),
    (&[(0, 1), (4, 2), (8, 3), (0xFFFF_FFFC, 0)], 4),
    (&[(0, 1), (4, 2), (8, 3), (0xFFFF_FFFC, 0)], 8),
];

/// What a memory answers before stores, to them, and behind them.
fn outcomes<M: Memory>(memory: &mut M) -> ([Option<u32>; 4], [bool; 4], [Option<u32>; 4])
    requires { M.sound memory.old }
    ensures { M.sound memory.new }
{
    let before = loaded(memory);
    let stored = [
        memory.store_word(0, 0xFFFF_FFFF),
        memory.store_word(4, 10),
        memory.store_word(7, 11),
        memory.store_word(0xFFFF_FFFC, 0),
    ];
    (before, stored, loaded(memory))
}

/// A run over words that are hashed is that over words that are bisected.
#[test]
fn finds_words_by_hashing(rt: HostRuntime) -> Result<(), Fail> {
    for (pairs, count) in TABLES {
        let words = words_of(rt.alloc(), pairs)?;
        let mut region = Region::new(rt.alloc(), words.len())?;
        let partial = Partial::new(&mut region, &words).ok_or("no room")?;
        let mut held = Held::over(region.view_mut(partial.span()));

        let mut slots = Vec::new(rt.alloc());
        slots.resize(count, 0)?;
        if words.len() > count {
            return Err("too few slots".into());
        }
        let mut hashed = Hashed::over(&words, slots.as_mut_slice());
        let first = pairs.first().copied().unwrap_or((4, 0));
        let found = hashed.load_word(first.0);
        assert_eq!(rt; found.is_some(), !pairs.is_empty());
        assert_eq!(rt; found.unwrap_or(0), first.1);
        assert_eq!(rt; outcomes(&mut hashed), outcomes(&mut held), "{count} slots");
        assert!(rt; hashed.covers(3, 0xFFFF_FFFF));
    }
    Ok(())
}

/// What happens to windows.
enum Event {
    Start,
    End,
    Touch(u32, u32),
}

const EVENTS: [Event; 12] = [
    Event::Touch(0, 1),
    Event::Start,
    Event::Touch(0, 2),
    Event::Touch(8, 3),
    Event::Start,
    Event::Start,
    Event::Touch(8, 4),
    Event::Touch(4, 5),
    Event::End,
    Event::Touch(0, 6),
    Event::Touch(0, 7),
    Event::End,
];

#[test]
fn keeps_the_first_of_each_window(rt: HostRuntime) -> Result<(), Fail> {
    let mut windows = Windows::new(rt.alloc());
    for event in &EVENTS {
        match event {
            Event::Start if windows.started() < 3 => windows.start()?,
            Event::End if windows.ended() < windows.started() => windows.end(),
            Event::Touch(addr, value) if *addr % 4 == 0 => windows.touch(*addr, *value)?,
            _ => return Err("no such event".into()),
        }
    }
    let wanted: [&[(u32, u32)]; 3] = [
        &[(0, 2), (4, 5), (8, 3)],
        &[(0, 6), (4, 5), (8, 4)],
        &[(0, 6), (4, 5), (8, 4)],
    ];
    let mut window = 0;
    for pairs in &wanted {
        assert!(rt; window < windows.started());
        if window < windows.started() {
            assert_eq!(rt; windows.len(window), pairs.len());
            assert_eq!(rt; windows.words(window)?.as_slice(), *pairs);
            window += 1;
        }
    }
    Ok(())
}
