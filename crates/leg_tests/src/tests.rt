// The tests, and the solver that they compare with.
use legs::{LegTable, search};
use lengths::{Gates, Length, Paces, Zeroed, zero_of};
use std::array;
use std::process::Abort;

// From, to and length. Node 0 is the start, 1 to 16 are list positions, 31 is the goal.
type Leg = (u16, u16, u64);

// Sets the leg from one node to another.
fn set(table: &mut LegTable, from: u16, to: u16, length: Option<u64>) {
    match (from, to) {
        (0, 31) => table.set_direct(length),
        (0, _) => table.set_access(to, length),
        (_, 31) => table.set_egress(from, length),
        _ => table.set_between(from, to, length),
    }
}

// The table for `count` list positions that holds the legs.
fn table_of(count: u16, legs: &[Leg]) -> LegTable {
    let mut table = LegTable::new(count);
    for &(from, to, length) in legs {
        set(&mut table, from, to, Some(length));
    }
    table
}

// Takes a leg, where it leads to a better length.
fn relax<K: Length>(best: &mut [Option<u64>; 32], (from, to, leg): Leg) {
    let Some(&Some(walked)) = best.get(usize::from(from)) else {
        return;
    };
    if let Some(known) = best.get_mut(usize::from(to)) {
        let length = K::join(walked, leg);
        if !known.is_some_and(|known| K::no_worse(known, length)) {
            *known = Some(length);
        }
    }
}

// The best lengths to the nodes, by one round over all legs for each node.
fn relaxed<K: Zeroed>(legs: &[Leg]) -> [Option<u64>; 32] {
    let mut best = [None; 32];
    best[0] = Some(zero_of::<K>());
    for _ in 0..18 {
        for &leg in legs {
            relax::<K>(&mut best, leg);
        }
    }
    best
}

const TOP: u64 = u64::MAX;

// Both say the same of the goal and of every position, and nothing of other numbers.
fn agree<K: Zeroed>(rt: &impl Abort, count: u16, legs: &[Leg]) {
    let found = search::<K>(&table_of(count, legs));
    let best = relaxed::<K>(legs);
    assert_eq!(rt; found.goal(), best[31]);
    for (i, &length) in (1..=16).zip(&best[1..]) {
        assert_eq!(rt; found.position(i), length);
    }
    for i in [0, 17, 30, 31, 32, 65_535] {
        assert_eq!(rt; found.position(i), None);
    }
}

fn goals(rt: &impl Abort, count: u16, legs: &[Leg], paces: Option<u64>, gates: Option<u64>) {
    let table = table_of(count, legs);
    assert_eq!(rt; search::<Paces>(&table).goal(), paces);
    assert_eq!(rt; search::<Gates>(&table).goal(), gates);
    agree::<Paces>(rt, count, legs);
    agree::<Gates>(rt, count, legs);
}

#[test]
fn few_legs(rt: HostRuntime) {
    goals(&rt, 0, &[], None, None);
    goals(&rt, 16, &[], None, None);
    goals(&rt, 0, &[(0, 31, 7)], Some(7), Some(7));
    goals(&rt, 2, &[(0, 1, 3), (1, 31, 4)], Some(7), Some(3));
    goals(
        &rt,
        2,
        &[(0, 31, 9), (0, 1, 3), (1, 2, 5), (2, 31, 4)],
        Some(9),
        Some(9),
    );
    goals(
        &rt,
        2,
        &[(0, 31, 9), (0, 1, 3), (1, 2, 2), (2, 31, 3)],
        Some(8),
        Some(9),
    );
    // a position that is reached and has no egress, and one with egress that is not reached
    goals(&rt, 3, &[(0, 1, 3), (1, 2, 1), (3, 31, 1)], None, None);
}

#[test]
fn ties(rt: HostRuntime) {
    goals(
        &rt,
        3,
        &[
            (0, 1, 2),
            (0, 2, 2),
            (1, 3, 2),
            (2, 3, 2),
            (3, 31, 0),
            (0, 31, 4),
        ],
        Some(4),
        Some(4),
    );
    goals(
        &rt,
        2,
        &[(0, 1, 0), (1, 2, 0), (2, 1, 0), (2, 31, 0), (1, 31, 0)],
        Some(0),
        Some(0),
    );
}

#[test]
fn at_the_top(rt: HostRuntime) {
    goals(&rt, 1, &[(0, 1, TOP), (1, 31, TOP)], Some(TOP), Some(TOP));
    goals(
        &rt,
        2,
        &[(0, 1, TOP - 1), (1, 31, 1), (0, 2, TOP - 2), (2, 31, 1)],
        Some(TOP - 1),
        Some(1),
    );
    goals(
        &rt,
        2,
        &[(0, 1, TOP), (1, 2, TOP), (2, 31, 5), (0, 31, TOP)],
        Some(TOP),
        Some(TOP),
    );
}

// From the start through every position to the goal, and the direct length.
fn chain() -> [Leg; 18] {
    array::from_fn(|i| match i as u16 {
        17 => (0, 31, 400),
        16 => (16, 31, 20),
        from => (from, from + 1, 20),
    })
}

#[test]
fn through_all_positions(rt: HostRuntime) {
    goals(&rt, 16, &chain(), Some(340), Some(400));
    // with fewer positions the chain breaks
    assert_eq!(rt; search::<Paces>(&table_of(15, &chain())).goal(), Some(400));
}

// A leg of the dense tables; one in four is absent, and said as one that names no leg.
fn mixed(from: u16, to: u16, seed: u16) -> Leg {
    let i = u64::from(from);
    let j = u64::from(to);
    let k = u64::from(seed);
    if (i + j * 3 + k) % 4 == 0 {
        (0, 0, 0)
    } else {
        (
            from,
            if to == 0 { 31 } else { to },
            (i * 31 + j * 17 + k * 5) % 23,
        )
    }
}

fn dense(seed: u16) -> [Leg; 289] {
    array::from_fn(|i| mixed((i / 17) as u16, (i % 17) as u16, seed))
}

#[test]
fn many_legs(rt: HostRuntime) {
    for seed in 0..6 {
        agree::<Paces>(&rt, 16, &dense(seed));
        agree::<Gates>(&rt, 16, &dense(seed));
    }
}

#[test]
fn set_and_taken_back(rt: HostRuntime) {
    let mut table = table_of(4, &[(0, 1, 1), (1, 31, 2), (0, 31, 5)]);
    // numbers that name no leg
    for i in [0, 5, 16, 17, 31, 65_535] {
        table.set_access(i, Some(0));
        table.set_egress(i, Some(0));
        table.set_between(1, i, Some(0));
        table.set_between(i, 1, Some(0));
    }
    table.set_between(1, 1, Some(0));
    assert_eq!(rt; search::<Paces>(&table).goal(), Some(3));
    assert_eq!(rt; table.leg(0, 31), Some(5));
    assert_eq!(rt; table.leg(1, 1), None);
    table.set_access(1, None);
    assert_eq!(rt; search::<Paces>(&table).goal(), Some(5));
    table.set_direct(None);
    assert_eq!(rt; search::<Paces>(&table).goal(), None);
}
