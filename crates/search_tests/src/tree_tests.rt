use super::drawing::*;
use super::relaxing::*;
use lengths::{Gates, Paces, Zeroed};
use maps::Reversed;
use sheet::Sheet;
use std::alloc::Global;
use std::array;
use std::process::Abort;
use std::test::Fail;
use trees::{bounded_run, bounded_run_against, bounded_tree};

// Loops, parallel streets of equal length, an empty slot, and the longest street.
const ODD: [Slot; 9] = [
    Some((1, 1, 0)),
    Some((1, 2, 9)),
    Some((1, 2, 9)),
    None,
    Some((2, 2, u32::MAX)),
    Some((2, 3, u32::MAX)),
    Some((3, 1, u32::MAX)),
    Some((2, 3, u32::MAX)),
    Some((3, 4, u32::MAX)),
];

// Transit lists: none, one junction, some off the map, many.
const LISTS: [&[u16]; 4] = [
    &[],
    &[2],
    &[1, 3, 7, 900],
    &[1, 2, 3, 4, 5, 6, 7, 8, 9, 10, 11, 12, 13, 14, 15, 16],
];

// Both runs from one root, beside the other search.
fn both_ways<K: Zeroed>(rt: &impl Abort, map: &Sheet<'_>, q: &Question<'_>) -> Result<(), Fail> {
    let along = bounded_run::<Sheet<'_>, K>(map, q.transit, q.closed, q.root);
    q.same::<Sheet<'_>, K>(rt, map, &along)?;
    let against = bounded_run_against::<Sheet<'_>, K>(map, q.transit, q.closed, q.root);
    q.same::<Reversed<'_, Sheet<'_>>, K>(rt, &Reversed { map }, &against)
}

// Roots from 0 on, those past the junctions among them, with some transit lists, in paces and in gates.
fn all_roots(
    rt: &impl Abort,
    map: &Sheet<'_>,
    closed: &[bool; 512],
    roots: u16,
) -> Result<(), Fail> {
    for root in 0..roots {
        for transit in LISTS {
            let q = Question {
                transit,
                closed,
                root,
            };
            both_ways::<Paces>(rt, map, &q)?;
            both_ways::<Gates>(rt, map, &q)?;
        }
    }
    Ok(())
}

// The same with no street closed, with some and with all.
fn all_questions(
    rt: &impl Abort,
    heap: Global,
    n: u8,
    slots: &[Slot],
    roots: u16,
) -> Result<(), Fail> {
    let bytes = drawn(heap, n, slots)?;
    let map = map_of::<Sheet<'_>>(bytes.as_slice())?;
    let some = array::from_fn(|i| i % 3 == 1);
    for closed in [[false; 512], some, [true; 512]] {
        all_roots(rt, &map, &closed, roots)?;
    }
    Ok(())
}

#[test]
fn small_maps(rt: HostRuntime) -> Result<(), Fail> {
    all_questions(&rt, rt.alloc(), 4, &FOUR, 6)?;
    all_questions(&rt, rt.alloc(), 4, &DIAMOND, 6)?;
    all_questions(&rt, rt.alloc(), 5, &ODD, 7)?;
    all_questions(&rt, rt.alloc(), 1, &[], 3)?;
    all_questions(&rt, rt.alloc(), 128, &[], 130)
}

#[test]
fn dense_maps(rt: HostRuntime) -> Result<(), Fail> {
    let uneven = dense(rt.alloc(), 22, None)?;
    all_questions(&rt, rt.alloc(), 22, uneven.as_slice(), 24)?;
    let even = dense(rt.alloc(), 16, Some(0))?;
    all_questions(&rt, rt.alloc(), 16, even.as_slice(), 4)?;
    let long = dense(rt.alloc(), 16, Some(u32::MAX))?;
    all_questions(&rt, rt.alloc(), 16, long.as_slice(), 4)
}

// The tree of 2 in paces has slots 2, 5 and 3; of the two ways of the diamond the one by slot 3 is taken.
#[test]
fn trees_by_slot(rt: HostRuntime) -> Result<(), Fail> {
    let bytes = drawn(rt.alloc(), 4, &FOUR)?;
    let map = map_of::<Sheet<'_>>(bytes.as_slice())?;
    let tree = bounded_tree::<Sheet<'_>, Paces>(&map, &[2], 2);
    assert_eq!(rt; tree.get(2), Some((0, 0)));
    assert_eq!(rt; tree.get(4), Some((2, 4)));
    assert_eq!(rt; tree.get(1), Some((5, 5)));
    assert_eq!(rt; tree.get(3), Some((3, 10)));
    let bytes = drawn(rt.alloc(), 4, &DIAMOND)?;
    let map = map_of::<Sheet<'_>>(bytes.as_slice())?;
    let tree = bounded_tree::<Sheet<'_>, Paces>(&map, &[1], 1);
    assert_eq!(rt; tree.get(4), Some((3, 2)));
    assert_eq!(rt; tree.get(5), None);
    Ok(())
}
