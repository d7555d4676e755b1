// The solved examples through the calls of a life, the end of the tally, and a list named anew.
use super::drawing::*;
use calls::{Answer, Call, Fault};
use lengths::{Gates, Paces, Zeroed};
use lives::live;
use maps::{Map, TwoWay};
use oracle::Plan;
use sheet::{Sheet, least_sheet};
use std::alloc::Global;
use std::process::Abort;
use std::test::Fail;

// How many calls the life of the tally has: a build, 65,536 asks and a tally.
const LONG_LIFE: usize = 65_538;

// The life has the answers, one after the other.
fn lives_as<M: TwoWay + Drop, K: Zeroed>(
    rt: &impl Abort,
    map: M,
    calls: &[Call],
    wanted: &[Answer],
) {
    let mut answers = [Answer::Done; 13];
    let map = live::<M, K>(map, calls, &mut answers);
    assert_eq!(rt; map.junctions(), 4);
    for (answer, right) in answers.iter().zip(wanted) {
        assert_eq!(rt; *answer, *right);
    }
}

// The same over the sheet with four junctions and these slots.
fn sheet_lives_as<K: Zeroed>(
    rt: &impl Abort,
    heap: Global,
    slots: &[Slot],
    calls: &[Call],
    wanted: &[Answer],
) -> Result<(), Fail> {
    let bytes = drawn(heap, 4, slots)?;
    lives_as::<Sheet<'_>, K>(rt, map_of::<Sheet<'_>>(bytes.as_slice())?, calls, wanted);
    Ok(())
}

#[test]
fn paces_on_four_junctions(rt: HostRuntime) -> Result<(), Fail> {
    sheet_lives_as::<Paces>(
        &rt,
        rt.alloc(),
        &FOUR,
        &[
            Call::Name(2),
            Call::Build,
            Call::Ask(1, 4),
            Call::Close(2),
            Call::Ask(1, 4),
            Call::Close(4),
            Call::Ask(1, 4),
            Call::Ask(3, 3),
            Call::Reopen(2),
            Call::Ask(1, 4),
            Call::Tally,
        ],
        &[
            Answer::Done,
            Answer::Done,
            Answer::Length(7, 0),
            Answer::Done,
            Answer::Length(10, 1),
            Answer::Done,
            Answer::NoWay(1),
            Answer::Length(0, 0),
            Answer::Done,
            Answer::Length(7, 0),
            Answer::Count(5),
        ],
    )
}

#[test]
fn gates_on_four_junctions(rt: HostRuntime) -> Result<(), Fail> {
    sheet_lives_as::<Gates>(
        &rt,
        rt.alloc(),
        &FOUR,
        &[Call::Build, Call::Ask(1, 4), Call::Ask(1, 1)],
        &[
            Answer::Done,
            Answer::Length(5, 0),
            Answer::Length(u64::MAX, 0),
        ],
    )
}

// A tree is affected though its length survives, and trees are built without closures, so that reopening finds the old way.
#[test]
fn closures_outlast_a_build(rt: HostRuntime) -> Result<(), Fail> {
    sheet_lives_as::<Paces>(
        &rt,
        rt.alloc(),
        &DIAMOND,
        &[
            Call::Name(1),
            Call::Build,
            Call::Close(3),
            Call::Ask(1, 4),
            Call::Replan,
            Call::Ask(1, 4),
            Call::Name(1),
            Call::Build,
            Call::Ask(1, 4),
            Call::Close(4),
            Call::Ask(1, 4),
            Call::Reopen(3),
            Call::Ask(1, 4),
        ],
        &[
            Answer::Done,
            Answer::Done,
            Answer::Done,
            Answer::Length(2, 1),
            Answer::Done,
            Answer::Refused(Fault::StateLacks),
            Answer::Done,
            Answer::Done,
            Answer::Length(2, 1),
            Answer::Done,
            Answer::NoWay(1),
            Answer::Done,
            Answer::Length(2, 0),
        ],
    )
}

// After 65,536 asks the tally is 65,535.
#[test]
fn the_tally_stops(rt: HostRuntime) {
    let mut calls = [Call::Ask(1, 1); LONG_LIFE];
    calls[0] = Call::Build;
    calls[LONG_LIFE - 1] = Call::Tally;
    let mut answers = [Answer::Done; LONG_LIFE];
    let _ = live::<Sheet<'_>, Paces>(least_sheet(), &calls, &mut answers);
    assert_eq!(rt; answers[1], Answer::Length(0, 0));
    assert_eq!(rt; answers[LONG_LIFE - 1], Answer::Count(65_535));
}

// One junction is named where two were before: the second position is gone from every look.
#[test]
fn looks_end_with_the_list(rt: HostRuntime) -> Result<(), Fail> {
    let bytes = drawn(rt.alloc(), 4, &FOUR)?;
    let mut plan = Plan::<Sheet<'_>, Paces>::new(map_of::<Sheet<'_>>(bytes.as_slice())?);
    assert!(rt; plan.name(2).is_ok());
    assert!(rt; plan.name(3).is_ok());
    let index = plan.build();
    assert_eq!(rt; index.look_tree(2, 4), Some((4, 5)));
    assert_eq!(rt; index.look_leg(1, 2), Some(10));
    assert_eq!(rt; index.look_index(5, 2), Some(2));
    let mut plan = index.replan();
    assert!(rt; plan.name(2).is_ok());
    let index = plan.build();
    assert_eq!(rt; index.look_tree(1, 4), Some((2, 4)));
    assert_eq!(rt; index.look_tree(2, 4), None);
    assert_eq!(rt; index.look_leg(1, 2), None);
    assert_eq!(rt; index.look_index(5, 2), None);
    Ok(())
}

// Sixteen junctions are named, and one of them when they are named anew.
#[test]
fn one_named_after_sixteen(rt: HostRuntime) -> Result<(), Fail> {
    let slots = dense(rt.alloc(), 16, Some(1))?;
    let bytes = drawn(rt.alloc(), 16, slots.as_slice())?;
    let mut plan = Plan::<Sheet<'_>, Paces>::new(map_of::<Sheet<'_>>(bytes.as_slice())?);
    for v in 1..=16 {
        let _ = plan.name(v);
    }
    let index = plan.build();
    assert_eq!(rt; index.look_tree(16, 1), Some((241, 1)));
    assert_eq!(rt; index.look_leg(2, 16), Some(1));
    let mut plan = index.replan();
    let _ = plan.name(5);
    let index = plan.build();
    assert_eq!(rt; index.look_tree(1, 1), Some((65, 1)));
    assert_eq!(rt; index.look_tree(2, 1), None);
    assert_eq!(rt; index.look_leg(1, 2), None);
    assert_eq!(rt; index.look_index(65, 1), Some(1));
    assert_eq!(rt; index.look_index(65, 2), None);
    Ok(())
}
