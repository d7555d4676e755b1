// Sheets: the four-junction sheet, the edges of the layout, and each refusal on both sides of its condition.
use crate::tables::{
    check_counts, check_first, check_kept, check_next, check_numbers, check_streets, number_of,
};
use samples::four_junctions;
use sheet::{Sheet, least_sheet, open_sheet};
use std::test::Fail;

#[test]
fn four_junctions_and_five_streets(rt: HostRuntime) -> Result<(), Fail> {
    let file = four_junctions();
    let mut map = least_sheet();
    open_sheet(&file, &mut map)?;
    check_counts(&rt, &map, 4, 5);
    let streets = [
        (0, 0, 0, 0),
        (1, 1, 2, 3),
        (2, 2, 4, 4),
        (3, 1, 3, 5),
        (4, 3, 4, 5),
        (5, 4, 1, 1),
        (6, 0, 0, 0),
        (65_535, 0, 0, 0),
    ];
    check_streets(&rt, &map, &streets);
    Ok(())
}

#[test]
fn links_of_four_junctions(rt: HostRuntime) -> Result<(), Fail> {
    let file = four_junctions();
    let mut map = least_sheet();
    open_sheet(&file, &mut map)?;
    let first = [
        (0, 0, 0),
        (1, 1, 5),
        (2, 2, 1),
        (3, 4, 3),
        (4, 5, 2),
        (5, 0, 0),
        (65_535, 0, 0),
    ];
    check_first(&rt, &map, &first);
    let next = [
        (0, 0, 0),
        (1, 3, 0),
        (2, 0, 4),
        (3, 0, 0),
        (4, 0, 0),
        (5, 0, 0),
        (6, 0, 0),
        (65_535, 0, 0),
    ];
    check_next(&rt, &map, &next);
    Ok(())
}

#[test]
fn one_junction_without_slots(rt: HostRuntime) -> Result<(), Fail> {
    let mut map = least_sheet();
    open_sheet(b"\x53\x01\0\0\0\0\0\0", &mut map)?;
    check_counts(&rt, &map, 1, 0);
    check_streets(&rt, &map, &[(0, 0, 0, 0), (1, 0, 0, 0)]);
    check_first(&rt, &map, &[(1, 0, 0)]);
    check_next(&rt, &map, &[(1, 0, 0)]);
    Ok(())
}

// Three streets from junction 1 to itself, two of them alike and the last of the greatest length.
#[test]
fn loops_and_parallel_streets(rt: HostRuntime) -> Result<(), Fail> {
    let file =
        b"\x53\x01\x03\0\x01\0\x01\0\x01\x01\x07\0\0\0\x02\0\x02\0\x01\x01\x07\0\0\0\x03\0\x03\0\x01\x01\xff\xff\xff\xff\0\0\0\0";
    let mut map = least_sheet();
    open_sheet(file, &mut map)?;
    let streets = [(1, 1, 1, 7), (2, 1, 1, 7), (3, 1, 1, 4_294_967_295)];
    check_streets(&rt, &map, &streets);
    check_first(&rt, &map, &[(1, 1, 1)]);
    check_next(&rt, &map, &[(1, 2, 2), (2, 3, 3), (3, 0, 0)]);
    Ok(())
}

#[test]
fn numbers(rt: HostRuntime) {
    let cases: [(&[u8], u8); 20] = [
        (b"", 1),
        (b"\x53\x01\0", 1),
        (b"\x47\x01\0", 1),
        (b"\x53\x01\0\0", 4),
        (b"\x54\x01\0\0\0\0\0\0", 2),
        (b"\x52\0\0\0", 2),
        (b"\x47\x01\0\0", 2),
        (b"\x53\0\0\0", 3),
        (b"\x53\0\0\0\0\0\0\0", 3),
        (b"\x53\x80\0\0", 4),
        (b"\x53\x81\0\0", 3),
        (b"\x53\xff\0\0", 3),
        (b"\x53\x01\0\x02", 4),
        (b"\x53\x01\x01\x02", 3),
        (b"\x53\x01\xff\xff", 3),
        (b"\x53\x01\0\0\0\0\0", 4),
        (b"\x53\x01\0\0\0\0\0\0", 0),
        (b"\x53\x01\0\0\0\0\0\0\0", 4),
        (b"\x53\x01\x01\0\0\0\0\0\0\0\0\0\0\0\0\0\0\0", 0),
        (b"\x53\x01\x01\0\0\0\0\0\0\0\0\0\0\0\0\0\0\x01", 5),
    ];
    check_numbers::<Sheet>(&rt, &cases);
}

// The four-junction sheet with two bytes set. The record of slot e begins at 10 + 10 e, and that of junction v at 4 v.
#[test]
fn numbers_of_records_and_links(rt: HostRuntime) {
    let cases = [
        ((20, 1), (60, 4), 0),
        ((60, 0), (60, 0), 5),
        ((60, 5), (60, 5), 6),
        ((61, 0), (61, 0), 6),
        ((61, 5), (61, 5), 6),
        ((20, 0), (60, 5), 5),
        ((20, 5), (60, 0), 6),
        ((4, 3), (60, 0), 5),
        ((4, 3), (4, 3), 7),
        ((4, 1), (6, 0), 7),
        ((8, 2), (26, 0), 7),
        ((27, 1), (27, 1), 7),
        ((38, 3), (38, 3), 7),
        ((36, 6), (36, 6), 7),
        ((68, 5), (68, 5), 7),
    ];
    for ((a, x), (b, y), number) in cases {
        let mut file = four_junctions();
        assert!(rt; a < file.len() && b < file.len());
        file[a] = x;
        file[b] = y;
        assert_eq!(rt; number_of::<Sheet>(&file), number);
    }
}

#[test]
fn a_refusal_leaves_the_place(rt: HostRuntime) -> Result<(), Fail> {
    let file = four_junctions();
    let mut map = least_sheet();
    open_sheet(&file, &mut map)?;
    let refused: [&[u8]; 4] = [
        b"",
        b"\x53\x81\0\0",
        b"\x53\x01\0\0\0\0\0\0\0",
        b"\x53\x01\0\0\x01\0\0\0",
    ];
    check_kept(&rt, &mut map, &refused, (4, 5), (2, 2, 4, 4));
    open_sheet(b"\x53\x01\0\0\0\0\0\0", &mut map)?;
    check_counts(&rt, &map, 1, 0);
    Ok(())
}
