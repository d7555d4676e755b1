// Blocks: the two-cell block, the edges of the layout, and each refusal on both sides of its condition.
use crate::tables::{
    check_counts, check_first, check_kept, check_next, check_numbers, check_streets,
};
use block::{Block, least_block, open_block};
use maps::Map;
use samples::two_cells;
use std::test::Fail;

#[test]
fn two_cells_and_one_street(rt: HostRuntime) -> Result<(), Fail> {
    let file = two_cells();
    let mut map = least_block();
    open_block(&file, &mut map)?;
    check_counts(&rt, &map, 2, 8);
    for e in 0..10u16 {
        let street = if e == 2 { Some((1, 2, 4)) } else { None };
        assert_eq!(rt; map.slot(e), street);
    }
    check_first(
        &rt,
        &map,
        &[(0, 0, 0), (1, 2, 0), (2, 0, 2), (65_535, 0, 0)],
    );
    check_next(
        &rt,
        &map,
        &[(0, 0, 0), (1, 0, 0), (2, 0, 0), (65_535, 0, 0)],
    );
    Ok(())
}

// Two rows of two cells, each side between two cells open both ways.
#[test]
fn four_cells(rt: HostRuntime) -> Result<(), Fail> {
    let mut map = least_block();
    open_block(b"\x47\x02\x02\x06\x1c\x23\xf9", &mut map)?;
    check_counts(&rt, &map, 4, 16);
    let streets = [
        (1, 0, 0, 0),
        (2, 1, 2, 2),
        (3, 1, 3, 3),
        (4, 0, 0, 0),
        (7, 2, 4, 16),
        (8, 2, 1, 1),
        (9, 3, 1, 1),
        (10, 3, 4, 16),
        (13, 4, 2, 2),
        (16, 4, 3, 3),
        (17, 0, 0, 0),
    ];
    check_streets(&rt, &map, &streets);
    check_first(&rt, &map, &[(1, 2, 8), (2, 7, 2), (3, 9, 3), (4, 13, 7)]);
    check_next(&rt, &map, &[(2, 3, 13), (7, 8, 10), (8, 0, 9), (16, 0, 0)]);
    Ok(())
}

// One row of 128 cells, each open to both neighbours; the way into the last has length 16.
#[test]
fn width_128(rt: HostRuntime) -> Result<(), Fail> {
    let mut file = [0x0au8; 131];
    file[0] = 0x47;
    file[1] = 128;
    file[2] = 1;
    file[3] = 0x02;
    file[130] = 0xf8;
    let mut map = least_block();
    open_block(&file, &mut map)?;
    check_counts(&rt, &map, 128, 512);
    let streets = [
        (2, 1, 2, 1),
        (506, 127, 128, 16),
        (508, 127, 126, 1),
        (512, 128, 127, 1),
        (513, 0, 0, 0),
    ];
    check_streets(&rt, &map, &streets);
    check_first(&rt, &map, &[(1, 2, 8), (128, 512, 506), (129, 0, 0)]);
    check_next(&rt, &map, &[(6, 8, 16), (506, 508, 0), (512, 0, 0)]);
    Ok(())
}

#[test]
fn numbers(rt: HostRuntime) {
    let cases: [(&[u8], u8); 23] = [
        (b"", 1),
        (b"\x47\x01", 1),
        (b"\x53\x01", 1),
        (b"\x47\x01\x01", 4),
        (b"\x53\x01\x01\0", 2),
        (b"\x48\0\0", 2),
        (b"\x47\0\x01", 3),
        (b"\x47\x01\0", 3),
        (b"\x47\0\0", 3),
        (b"\x47\x80\x01", 4),
        (b"\x47\x81\x01", 3),
        (b"\x47\x10\x08", 4),
        (b"\x47\x0b\x0c", 3),
        (b"\x47\xff\xff", 3),
        (b"\x47\x01\x01\0", 0),
        (b"\x47\x01\x01\0\0", 4),
        (b"\x47\x02\x01\x02\x30", 0),
        (b"\x47\x02\x01\x02\x30\0", 4),
        (b"\x47\x01\x01\x01", 8),
        (b"\x47\x01\x01\x02", 8),
        (b"\x47\x01\x01\x04", 8),
        (b"\x47\x01\x01\x08", 8),
        (b"\x47\x01\x01\xf0", 0),
    ];
    check_numbers::<Block>(&rt, &cases);
}

#[test]
fn a_refusal_leaves_the_place(rt: HostRuntime) -> Result<(), Fail> {
    let file = two_cells();
    let mut map = least_block();
    open_block(&file, &mut map)?;
    let refused: [&[u8]; 4] = [b"", b"\x47\0\x01", b"\x47\x01\x01\0\0", b"\x47\x01\x01\x01"];
    check_kept(&rt, &mut map, &refused, (2, 8), (2, 1, 2, 4));
    open_block(b"\x47\x01\x01\0", &mut map)?;
    check_counts(&rt, &map, 1, 4);
    Ok(())
}
