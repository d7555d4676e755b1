// Maps drawn from lists of slots, or by chance.
use formats::MapFile;
use std::alloc::{AllocError, Global};
use std::test::Fail;

// A street: tail, head, length.
pub(crate) type Street = (u8, u8, u32);

// What a slot holds: a street, or nothing.
pub(crate) type Slot = Option<Street>;

pub(crate) const FOUR: [Slot; 5] = [
    Some((1, 2, 3)),
    Some((2, 4, 4)),
    Some((1, 3, 5)),
    Some((3, 4, 5)),
    Some((4, 1, 1)),
];

pub(crate) const DIAMOND: [Slot; 4] = [
    Some((1, 2, 1)),
    Some((1, 3, 1)),
    Some((2, 4, 1)),
    Some((3, 4, 1)),
];

// The number after one below 65,537 in a row that looks like chance.
pub(crate) fn next_chance(last: u32) -> u32 {
    last.wrapping_mul(48_271).wrapping_add(11) % 65_537
}

// An end of a street. An enum and no closure: over `impl Fn` the goal `find-requires-clause-callable` stays open.
#[derive(Clone, Copy)]
enum End {
    Tail,
    Head,
}

impl End {
    fn of(self, street: Street) -> u8 {
        match self {
            End::Tail => street.0,
            End::Head => street.1,
        }
    }
}

// The lowest slot above e whose street has v at this end.
fn next_slot(slots: &[Slot], end: End, v: u8, e: u16) -> Option<u16> {
    (1..=u16::MAX)
        .zip(slots)
        .skip(usize::from(e))
        .find(|(_, slot)| slot.is_some_and(|street| end.of(street) == v))
        .map(|(at, _)| at)
}

// The lowest slots above e that leave `tail` and that enter `head`, as a sheet writes them.
fn push_links(
    bytes: &mut Vec<u8>,
    slots: &[Slot],
    tail: u8,
    head: u8,
    e: u16,
) -> Result<(), AllocError> {
    let leaving = next_slot(slots, End::Tail, tail, e).unwrap_or(0);
    let entering = next_slot(slots, End::Head, head, e).unwrap_or(0);
    bytes.extend_from_slice(&leaving.to_le_bytes())?;
    bytes.extend_from_slice(&entering.to_le_bytes())
}

fn push_junctions(bytes: &mut Vec<u8>, n: u8, slots: &[Slot]) -> Result<(), AllocError> {
    for v in 1..=n {
        push_links(bytes, slots, v, v, 0)?;
    }
    Ok(())
}

fn push_slots(bytes: &mut Vec<u8>, slots: &[Slot]) -> Result<(), AllocError> {
    for (e, slot) in (1..=u16::MAX).zip(slots) {
        let Some((tail, head, length)) = *slot else {
            bytes.extend_from_slice(&[0; 10])?;
            continue;
        };
        bytes.extend_from_slice(&[tail, head])?;
        bytes.extend_from_slice(&length.to_le_bytes())?;
        push_links(bytes, slots, tail, head, e)?;
    }
    Ok(())
}

// The bytes of the sheet with n junctions and these slots.
pub(crate) fn drawn(heap: Global, n: u8, slots: &[Slot]) -> Result<Vec<u8>, AllocError> {
    let mut bytes = Vec::new(heap);
    bytes.extend_from_slice(&[0x53, n])?;
    let m = u16::try_from(slots.len()).unwrap_or(u16::MAX);
    bytes.extend_from_slice(&m.to_le_bytes())?;
    push_junctions(&mut bytes, n, slots)?;
    push_slots(&mut bytes, slots)?;
    Ok(bytes)
}

// A street from each of the first n junctions to each of them, itself included; lengths by a rule, or all equal.
pub(crate) fn dense(heap: Global, n: u8, length: Option<u32>) -> Result<Vec<Slot>, AllocError> {
    let mut slots = Vec::new(heap);
    let mut last = 7;
    for tail in 1..=n {
        for head in 1..=n {
            last = next_chance(last);
            slots.push(Some((tail, head, length.unwrap_or(last % 23))))?;
        }
    }
    Ok(slots)
}

// As many slots as are wanted, with streets between the first 22 junctions, by chance; some are empty.
pub(crate) fn sparse(heap: Global, wanted: u16, seed: u32) -> Result<Vec<Slot>, AllocError> {
    let mut slots = Vec::new(heap);
    let mut last = seed;
    for _ in 0..wanted {
        let from = next_chance(last);
        last = next_chance(from);
        let street = ((from % 22 + 1) as u8, (last % 22 + 1) as u8, from / 1_000);
        slots.push((last % 11 != 0).then_some(street))?;
    }
    Ok(slots)
}

// The bytes of a block with sides opened by chance, none at the border.
pub(crate) fn block_by_chance(
    heap: Global,
    width: u8,
    height: u8,
    seed: u32,
) -> Result<Vec<u8>, AllocError> {
    let mut bytes = Vec::new(heap);
    bytes.extend_from_slice(&[0x47, width, height])?;
    let mut last = seed;
    for row in 0..height {
        for column in 0..width {
            last = next_chance(last);
            let north = if row == 0 { !1 } else { u8::MAX };
            let east = if column == width - 1 { !2 } else { u8::MAX };
            let south = if row == height - 1 { !4 } else { u8::MAX };
            let west = if column == 0 { !8 } else { u8::MAX };
            bytes.push((last % 256) as u8 & north & east & south & west)?;
        }
    }
    Ok(bytes)
}

// The map of these bytes, by their format.
pub(crate) fn map_of<'a, F: MapFile<'a>>(bytes: &'a [u8]) -> Result<F, Fail> {
    let mut map = F::least();
    F::open(bytes, &mut map)?;
    Ok(map)
}
