// Each table holds inputs and what is printed for them.
use output::Output;
use session::run_text;
use std::alloc::Global;
use std::process::Abort;
use std::test::*;

// The sheet with four junctions and five streets.
const FOUR_JUNCTIONS: &[u8] =
    b"\x53\x04\x05\x00\x01\x00\x05\x00\x02\x00\x01\x00\x04\x00\x03\x00\x05\x00\x02\x00\x01\x02\x03\x00\x00\x00\x03\x00\x00\x00\x02\x04\x04\x00\x00\x00\x00\x00\x04\x00\x01\x03\x05\x00\x00\x00\x00\x00\x00\x00\x03\x04\x05\x00\x00\x00\x00\x00\x00\x00\x04\x01\x01\x00\x00\x00\x00\x00\x00\x00";

// The block of two cells side by side, the left one open to the east.
const TWO_CELLS: &[u8] = b"\x47\x02\x01\x02\x30";

// Each row holds a map file, a text, and what is printed for them.
fn print_as(rt: &impl Abort, heap: Global, rows: &[(&[u8], &[u8], &[u8])]) -> Result<(), Fail> {
    let mut out = Output::new(heap)?;
    for &(map, text, printed) in rows {
        run_text(map, text, &mut out);
        assert_eq!(rt; out.as_bytes(), printed);
    }
    Ok(())
}

// Every refusal of a map file, and each before the next one in the order of the checks; the text would be refused too.
#[test]
fn map_refusals(rt: HostRuntime) -> Result<(), Fail> {
    print_as(
        &rt,
        rt.alloc(),
        &[
            (b"", b"", b"refused 0 1\n"),
            (b"\x58", b"", b"refused 0 1\n"),
            (b"\x58\x00\x00\x00", b"", b"refused 0 2\n"),
            (b"\x53\x00\x00\x00", b"", b"refused 0 3\n"),
            (b"\x53\x00\x00\x00\x00", b"", b"refused 0 3\n"),
            (
                b"\x53\x01\x01\x00\x00\x00\x00\x00\x00\x01\x00\x00\x00\x00\x00\x00\x00\x00\x00",
                b"",
                b"refused 0 4\n",
            ),
            (
                b"\x53\x01\x01\x00\x00\x00\x00\x00\x00\x01\x00\x00\x00\x00\x00\x00\x00\x00",
                b"",
                b"refused 0 5\n",
            ),
            (
                b"\x53\x01\x02\x00\x00\x00\x00\x00\x00\x01\x00\x00\x00\x00\x00\x00\x00\x00\x02\x01\x00\x00\x00\x00\x00\x00\x00\x00",
                b"",
                b"refused 0 5\n",
            ),
            (
                b"\x53\x01\x02\x00\x00\x00\x00\x00\x02\x01\x00\x00\x00\x00\x00\x00\x00\x00\x00\x01\x00\x00\x00\x00\x00\x00\x00\x00",
                b"",
                b"refused 0 6\n",
            ),
            (
                b"\x53\x01\x02\x00\x00\x00\x00\x00\x01\x01\x00\x00\x00\x00\x00\x00\x00\x00\x02\x01\x00\x00\x00\x00\x00\x00\x00\x00",
                b"",
                b"refused 0 6\n",
            ),
            (
                b"\x53\x01\x01\x00\x00\x00\x00\x00\x01\x01\x00\x00\x00\x00\x00\x00\x00\x00",
                b"",
                b"refused 0 7\n",
            ),
            (b"\x47", b"", b"refused 0 1\n"),
            (b"\x47\x00\x01", b"", b"refused 0 3\n"),
            (b"\x47\x00\x01\x00", b"", b"refused 0 3\n"),
            (b"\x47\x01\x01", b"", b"refused 0 4\n"),
            (b"\x47\x01\x01\x01\x00", b"", b"refused 0 4\n"),
            (b"\x47\x01\x01\x01", b"", b"refused 0 8\n"),
        ],
    )
}

// The word of the first line, byte for byte.
#[test]
fn words(rt: HostRuntime) -> Result<(), Fail> {
    print_as(
        &rt,
        rt.alloc(),
        &[
            (FOUR_JUNCTIONS, b"", b"refused 1 54\n"),
            (FOUR_JUNCTIONS, b"\n", b"refused 1 54\n"),
            (FOUR_JUNCTIONS, b"\npaces\n", b"refused 1 54\n"),
            (FOUR_JUNCTIONS, b"pace", b"refused 1 54\n"),
            (FOUR_JUNCTIONS, b"paces \n", b"refused 1 54\n"),
            (FOUR_JUNCTIONS, b"paces\r\nB\n", b"refused 1 54\n"),
            (FOUR_JUNCTIONS, b"Gates", b"refused 1 54\n"),
            (FOUR_JUNCTIONS, b"paces", b""),
            (FOUR_JUNCTIONS, b"gates\n", b""),
        ],
    )
}

// The forms, the numbers, and the refusals of lines and calls in their order.
#[test]
fn lines(rt: HostRuntime) -> Result<(), Fail> {
    print_as(
        &rt,
        rt.alloc(),
        &[
            (FOUR_JUNCTIONS, b"paces\nT 2", b"ok\n"),
            (FOUR_JUNCTIONS, b"paces\nT 2\n", b"ok\n"),
            (
                FOUR_JUNCTIONS,
                b"paces\n\nB\r\nB \nT  2\nT\nQ 1\nb\n",
                b"refused 2 51\nrefused 3 51\nrefused 4 51\nrefused 5 51\nrefused 6 51\nrefused 7 51\nrefused 8 51\n",
            ),
            (
                FOUR_JUNCTIONS,
                b"paces\nT 65535\nT 65536\nT 000065535\n",
                b"refused 2 11\nrefused 3 52 65536\nrefused 4 11\n",
            ),
            (
                FOUR_JUNCTIONS,
                b"paces\nX 70000\nT 70000 1\nC 70000\nB\nQ 70000 80000\nQ 1 80000\n",
                b"refused 2 51\nrefused 3 51\nrefused 4 52 70000\nok\nrefused 6 52 70000\nrefused 7 52 80000\n",
            ),
            (
                FOUR_JUNCTIONS,
                b"paces\nC 9\nQ 9 9\nN\nP\nR 0\nB\nT 9\nB\n",
                b"refused 2 53\nrefused 3 53\nrefused 4 53\nrefused 5 53\nrefused 6 53\nok\nrefused 8 53\nrefused 9 53\n",
            ),
            (
                FOUR_JUNCTIONS,
                b"paces\nT 0\nT 5\nT 4\nT 4\n",
                b"refused 2 11\nrefused 3 11\nok\nrefused 5 12\n",
            ),
            (
                FOUR_JUNCTIONS,
                b"paces\nB\nC 6\nR 0\nC 5\nC 5\nR 5\nR 5\nQ 0 1\nQ 1 5\nQ 1 1\nN\n",
                b"ok\nrefused 3 21\nrefused 4 21\nok\nrefused 6 22\nok\nrefused 8 23\nrefused 9 24\nrefused 10 24\nlength 0 redone 0\ntally 1\n",
            ),
            (
                FOUR_JUNCTIONS,
                b"gates\nT 3\nB\nQ 1 4\nC 4\nQ 1 4\nP\nB\nQ 1 4\nN\n",
                b"ok\nok\nlength 5 redone 0\nok\nlength 3 redone 1\nok\nok\nlength 3 redone 0\ntally 3\n",
            ),
        ],
    )
}

// Sixteen junctions of a block of seventeen cells are named: named already comes before a full list, off the map before both.
#[test]
fn full_list(rt: HostRuntime) -> Result<(), Fail> {
    let text: &[u8] =
        b"paces\nT 1\nT 2\nT 3\nT 4\nT 5\nT 6\nT 7\nT 8\nT 9\nT 10\nT 11\nT 12\nT 13\nT 14\nT 15\nT 16\nT 16\nT 17\nT 18\n";
    print_as(
        &rt,
        rt.alloc(),
        &[(
            b"\x47\x11\x01\x00\x00\x00\x00\x00\x00\x00\x00\x00\x00\x00\x00\x00\x00\x00\x00\x00",
            text,
            b"ok\nok\nok\nok\nok\nok\nok\nok\nok\nok\nok\nok\nok\nok\nok\nok\nrefused 18 12\nrefused 19 13\nrefused 20 11\n",
        )],
    )
}

// A block, and a sheet with the same streets in fewer slots.
#[test]
fn block_and_sheet(rt: HostRuntime) -> Result<(), Fail> {
    let printed: &[u8] =
        b"ok\nok\nok\nlength 4 redone 0\nok\nno way redone 1\nrefused 8 21\nok\nrefused 10 23\nno way redone 0\nlength 0 redone 0\nrefused 13 24\ntally 4\nok\nrefused 16 53\n";
    let text: &[u8] =
        b"paces\nT 1\nT 2\nB\nQ 1 2\nC 2\nQ 1 2\nC 1\nR 2\nR 2\nQ 2 1\nQ 2 2\nQ 1 3\nN\nP\nQ 1 1\n";
    print_as(
        &rt,
        rt.alloc(),
        &[
            (TWO_CELLS, text, printed),
            (
                b"\x53\x02\x02\x00\x02\x00\x00\x00\x00\x00\x02\x00\x00\x00\x00\x00\x00\x00\x00\x00\x00\x00\x01\x02\x04\x00\x00\x00\x00\x00\x00\x00",
                text,
                printed,
            ),
        ],
    )
}

// The longest text, and one byte more; a text that is too long comes before its missing word, and a map file before both.
#[test]
fn text_sizes(rt: HostRuntime) -> Result<(), Fail> {
    let longest = [b'\n'; 4_096];
    let longer = [b'\n'; 4_097];
    print_as(
        &rt,
        rt.alloc(),
        &[
            (FOUR_JUNCTIONS, &longest, b"refused 1 54\n"),
            (FOUR_JUNCTIONS, &longer, b"refused 1 55\n"),
        ],
    )
}

#[test]
fn long_text_over_no_map(rt: HostRuntime) -> Result<(), Fail> {
    let ends = [b'\n'; 4_097];
    print_as(&rt, rt.alloc(), &[(b"", &ends, b"refused 0 1\n")])
}

// A text of 4,096 bytes whose lines after the word are all empty: each is refused in its own line.
#[test]
fn most_lines(rt: HostRuntime) -> Result<(), Fail> {
    let mut text = [b'\n'; 4_096];
    text[0..5].copy_from_slice(b"paces");
    let mut out = Output::new(rt.alloc())?;
    run_text(FOUR_JUNCTIONS, &text, &mut out);
    let printed = out.as_bytes();
    assert!(rt; printed.starts_with(b"refused 2 51\nrefused 3 51\n"));
    assert!(rt; printed.ends_with(b"\nrefused 4090 51\nrefused 4091 51\n"));
    Ok(())
}

// A number of two hundred digits, as it is printed again.
#[test]
fn many_digits(rt: HostRuntime) -> Result<(), Fail> {
    let mut text = [b'7'; 208];
    text[0..8].copy_from_slice(b"paces\nT ");
    let mut wanted = [b'7'; 214];
    wanted[0..13].copy_from_slice(b"refused 2 52 ");
    wanted[213] = b'\n';
    print_as(&rt, rt.alloc(), &[(FOUR_JUNCTIONS, &text, &wanted)])
}

#[test]
fn zeros_before_a_digit(rt: HostRuntime) -> Result<(), Fail> {
    let mut text = [b'0'; 208];
    text[0..8].copy_from_slice(b"paces\nT ");
    text[207] = b'2';
    print_as(&rt, rt.alloc(), &[(FOUR_JUNCTIONS, &text, b"ok\n")])
}

// The longest sheet, of 5,636 bytes, with no streets; one byte more, and 6,000 bytes of which the first 5,637 count.
#[test]
fn map_sizes(rt: HostRuntime) -> Result<(), Fail> {
    let head = b"\x53\x80\x00\x02";
    let mut longest = [0; 5_636];
    longest[0..4].copy_from_slice(head);
    let mut longer = [0; 5_637];
    longer[0..4].copy_from_slice(head);
    let mut far = [0; 6_000];
    far[0..4].copy_from_slice(head);
    let text: &[u8] = b"paces\nB\n";
    print_as(
        &rt,
        rt.alloc(),
        &[
            (&longest, text, b"ok\n"),
            (&longer, text, b"refused 0 4\n"),
            (&far, text, b"refused 0 4\n"),
        ],
    )
}
