// The text that the map checker gives of a file: for each format, and for each refusal number.
use mapreport::report;
use samples::{four_junctions, two_cells};
use std::process::Abort;
use std::test::Fail;

// The report on the bytes is this text.
fn check_report(rt: &(impl Abort + AllocGlobal), bytes: &[u8], text: &str) -> Result<(), Fail> {
    let said = report(rt.alloc(), bytes)?;
    assert!(rt; said.as_str() == text);
    Ok(())
}

#[test]
fn reports_of_accepted_files(rt: HostRuntime) -> Result<(), Fail> {
    let lines =
        "sheet: junctions 4, slots 5, streets 5\nslot 1: 1 to 2, length 3\nslot 2: 2 to 4, length 4\nslot 3: 1 to 3, length 5\nslot 4: 3 to 4, length 5\nslot 5: 4 to 1, length 1\n";
    check_report(&rt, &four_junctions(), lines)?;
    check_report(
        &rt,
        &two_cells(),
        "block: junctions 2, slots 8, streets 1\nslot 2: 1 to 2, length 4\n",
    )
}

#[test]
fn reports_of_refused_files(rt: HostRuntime) -> Result<(), Fail> {
    let rows: [(&[u8], &str); 9] = [
        (b"", "refused 0 1\n"),
        (b"\x47\x01", "refused 0 1\n"),
        (b"\x54\x01\x00\x00", "refused 0 2\n"),
        (b"\x53\x81\x00\x00", "refused 0 3\n"),
        (b"\x47\x02\x01\x02\x30\x00", "refused 0 4\n"),
        (
            b"\x53\x01\x01\x00\x00\x00\x00\x00\x00\x01\x00\x00\x00\x00\x00\x00\x00\x00",
            "refused 0 5\n",
        ),
        (
            b"\x53\x01\x01\x00\x00\x00\x00\x00\x01\x02\x00\x00\x00\x00\x00\x00\x00\x00",
            "refused 0 6\n",
        ),
        (
            b"\x53\x01\x01\x00\x00\x00\x00\x00\x01\x01\x00\x00\x00\x00\x00\x00\x00\x00",
            "refused 0 7\n",
        ),
        (b"\x47\x01\x01\x01", "refused 0 8\n"),
    ];
    for (bytes, text) in rows {
        check_report(&rt, bytes, text)?;
    }
    Ok(())
}
