use super::*;
use std::test::Fail;

/// How many words are carved, where the span begins that comes of it, and how many are free then.
const CARVINGS: [(usize, Option<usize>, usize); 5] = [
    (4, Some(0), 6),
    (7, None, 6),
    (6, Some(4), 0),
    (1, None, 0),
    (0, Some(10), 0),
];

#[test]
fn carves_what_is_free(rt: HostRuntime) -> Result<(), Fail> {
    let mut region = Region::new(rt.alloc(), 10)?;
    for (len, start, free) in CARVINGS {
        let span = region.carve(len);
        assert_eq!(rt; span.map(|span| span.start()), start, "at {len}");
        assert_eq!(rt; region.free(), free, "at {len}");
    }
    Ok(())
}

#[test]
fn keeps_what_is_below_a_mark(rt: HostRuntime) -> Result<(), Fail> {
    let mut region = Region::new(rt.alloc(), 10)?;
    let first = region.carve(4).ok_or("no room")?;
    region.view_mut(&first).copy_from_slice(&[1, 2, 3, 4]);
    let mark = region.mark();
    let second = region.carve(6).ok_or("no room")?;
    region.view_mut(&second).fill(9);
    assert_eq!(rt; region.view(&first), [1, 2, 3, 4].as_slice());

    let both = region.view_mut(&first.joined(&second));
    let (front, back) = both.split_at_mut(first.len());
    front[3] = back[0];
    back[0] = 7;
    assert_eq!(rt; region.view(&first), [1, 2, 3, 9].as_slice());
    assert_eq!(rt; region.view(&second), [7, 9, 9, 9, 9, 9].as_slice());

    region.release(mark);
    assert_eq!(rt; region.free(), 6);
    assert_eq!(rt; region.view(&first), [1, 2, 3, 9].as_slice());
    let again = region.carve(6).ok_or("no room")?;
    assert_eq!(rt; region.view(&again), [0; 6].as_slice());
    Ok(())
}
