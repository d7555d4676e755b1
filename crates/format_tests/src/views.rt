// The reversed view, equal streets across formats, and the largest sheet.
use crate::tables::{check_counts, check_first, check_next, check_streets};
use block::{least_block, open_block};
use maps::{Reversed, equal_streets};
use samples::{four_junctions, two_cells};
use sheet::{least_sheet, open_sheet};
use std::test::Fail;

#[test]
fn four_junctions_reversed(rt: HostRuntime) -> Result<(), Fail> {
    let file = four_junctions();
    let mut map = least_sheet();
    open_sheet(&file, &mut map)?;
    let back = Reversed { map: &map };
    check_counts(&rt, &back, 4, 5);
    check_streets(&rt, &back, &[(0, 0, 0, 0), (1, 2, 1, 3), (5, 1, 4, 1)]);
    check_first(&rt, &back, &[(1, 5, 1), (4, 2, 5), (5, 0, 0)]);
    check_next(&rt, &back, &[(1, 0, 3), (2, 4, 0), (6, 0, 0)]);
    Ok(())
}

// A sheet with two slots, the second of them a street from 1 to 2 of this length.
fn one_street(length: u8) -> [u8; 32] {
    let mut file =
        *b"\x53\x02\x02\0\x02\0\0\0\0\0\x02\0\0\0\0\0\0\0\0\0\0\0\x01\x02\0\0\0\0\0\0\0\0";
    file[24] = length;
    file
}

#[test]
fn equal_streets_across_formats(rt: HostRuntime) -> Result<(), Fail> {
    let file = two_cells();
    let mut cells = least_block();
    open_block(&file, &mut cells)?;
    let like = one_street(4);
    let mut same = least_sheet();
    open_sheet(&like, &mut same)?;
    let unlike = one_street(5);
    let mut other = least_sheet();
    open_sheet(&unlike, &mut other)?;
    assert!(rt; equal_streets(&cells, &same));
    assert!(rt; equal_streets(&same, &cells));
    assert!(rt; !equal_streets(&cells, &other));
    assert!(rt; !equal_streets(&least_block(), &cells));
    assert!(rt; equal_streets(&least_sheet(), &least_block()));
    Ok(())
}

// A sheet with 128 junctions and 512 slots: slots 4v - 3 to 4v leave junction v, and every 128th slot enters the same junction.
fn largest_file() -> [u8; 5636] {
    let mut file = [0; 5636];
    let (counts, records) = file.split_at_mut(4);
    counts.copy_from_slice(b"\x53\x80\0\x02");
    let (junctions, slots) = records.split_at_mut(512);
    for (i, record) in junctions.as_chunks_mut().0.iter_mut().enumerate() {
        let v = i as u16 + 1;
        let leaving = (4 * v - 3).to_le_bytes();
        let entering = v.to_le_bytes();
        *record = [leaving[0], leaving[1], entering[0], entering[1]];
    }
    for (i, record) in slots.as_chunks_mut().0.iter_mut().enumerate() {
        let e = i as u16 + 1;
        let tail = (i / 4 + 1) as u8;
        let head = (i % 128 + 1) as u8;
        let length = e.to_le_bytes();
        let leaving = if e % 4 == 0 { 0 } else { e + 1 }.to_le_bytes();
        let entering = if e > 384 { 0 } else { e + 128 }.to_le_bytes();
        *record = [
            tail,
            head,
            length[0],
            length[1],
            0,
            0,
            leaving[0],
            leaving[1],
            entering[0],
            entering[1],
        ];
    }
    file
}

#[test]
fn largest_sheet(rt: HostRuntime) -> Result<(), Fail> {
    let file = largest_file();
    let mut map = least_sheet();
    open_sheet(&file, &mut map)?;
    check_counts(&rt, &map, 128, 512);
    let streets = [(1, 1, 1, 1), (512, 128, 128, 512), (513, 0, 0, 0)];
    check_streets(&rt, &map, &streets);
    check_first(&rt, &map, &[(1, 1, 1), (128, 509, 128), (129, 0, 0)]);
    check_next(&rt, &map, &[(1, 2, 129), (384, 0, 512), (512, 0, 0)]);
    Ok(())
}
