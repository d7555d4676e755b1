// Tables of what a map should answer, and the checks of any map against them.
//
// In a table 0 stands for none: (1, 2, 0) is plainer than (1, Some(2), None) in rows of numbers, and no slot or junction is numbered 0.
use formats::MapFile;
use maps::{Map, TwoWay};
use std::process::Abort;

// The number with which the bytes are refused in a format; the numbers begin with 1, so 0 says accepted in a row of them.
pub(crate) fn number_of<'a, F: MapFile<'a>>(bytes: &'a [u8]) -> u8 {
    F::open(bytes, &mut F::least())
        .err()
        .map_or(0, |fault| fault.number())
}

// Each row holds bytes, and the number with which they are refused in a format.
pub(crate) fn check_numbers<'a, F: MapFile<'a>>(rt: &impl Abort, rows: &[(&'a [u8], u8)]) {
    for &(bytes, number) in rows {
        assert_eq!(rt; number_of::<F>(bytes), number);
    }
}

// The counts of junctions and slots.
pub(crate) fn check_counts<M: Map>(rt: &impl Abort, map: &M, junctions: u16, slots: u16) {
    assert_eq!(rt; map.junctions(), junctions);
    assert_eq!(rt; map.slots(), slots);
}

// Slot, tail, head and length; an absent street has tail 0.
pub(crate) fn check_streets<M: Map>(rt: &impl Abort, map: &M, rows: &[(u16, u16, u16, u32)]) {
    for &(e, tail, head, length) in rows {
        let street = (tail != 0).then_some((tail, head, length));
        assert_eq!(rt; map.slot(e), street);
    }
}

// A number, and the pair of slots that is answered at it.
fn check_pairs<F: Fn(u16) -> (Option<u16>, Option<u16>)>(
    rt: &impl Abort,
    rows: &[(u16, u16, u16)],
    answered: F,
)
    requires { F.IsAlwaysCallable answered }
{
    for &(at, first, second) in rows {
        let (leaving, entering) = answered(at);
        assert_eq!(rt; leaving.unwrap_or(0), first);
        assert_eq!(rt; entering.unwrap_or(0), second);
    }
}

// Junction, first leaving and first entering slot.
pub(crate) fn check_first<M: TwoWay>(rt: &impl Abort, map: &M, rows: &[(u16, u16, u16)]) {
    check_pairs(rt, rows, |v| (map.first_leaving(v), map.first_entering(v)));
}

// Slot, next leaving and next entering slot.
pub(crate) fn check_next<M: TwoWay>(rt: &impl Abort, map: &M, rows: &[(u16, u16, u16)]) {
    check_pairs(rt, rows, |e| (map.next_leaving(e), map.next_entering(e)));
}

// Each of the files is refused, and leaves the place with the counts and the street that it had.
pub(crate) fn check_kept<'a, F: MapFile<'a>>(
    rt: &impl Abort,
    place: &mut F,
    refused: &[&'a [u8]],
    (junctions, slots): (u16, u16),
    street: (u16, u16, u16, u32),
) {
    for bytes in refused {
        assert!(rt; F::open(bytes, place).is_err());
        check_counts(rt, place, junctions, slots);
        check_streets(rt, place, &[street]);
    }
}
