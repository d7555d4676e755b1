// What a map file holds, as text: for whoever makes map files.
//
// `report` takes any bytes and tells a block from a sheet by the first byte. Where the layout admits the bytes, the text names the
// format, counts junctions, slots and streets and has a line for each street; where it does not, the text is the refusal with its
// number. `describe` gives the same text for every map. Where memory is wanting there is no text; that nothing else fails is tested, and
// not promised, since the library does not say when memory is wanting. Neither reads a file nor prints.
#![tactic(auto)]

ghost use Rattle.std.specs.Prelude.{◌≡◌, ◌++◌, IfOk, string_bytes, OnOk};
ghost use Rattle.mapreport.specs.Report.{street_line, street_count, head_line, map_text, refusal_text, file_text, report_of};

use block::Block;
use formats::MapFile;
use maps::Map;
use sheet::Sheet;
use std::alloc::{AllocError, Global};

// How many slots hold a street.
fn count_streets<M: Map>(map: &M) -> usize
    ensures { result ≡ street_count (M.Map.graph map.now) (M.Map.graph map.now).slots }
{
    (1..=map.slots()).filter(|&e| map.slot(e).is_some()).count()
}

// Appends the line of slot e, if it holds a street.
fn add_street(
    heap: Global,
    text: &mut String,
    e: u16,
    street: Option<(u16, u16, u32)>,
) -> Result<(), AllocError>
    ensures { OnOk result (string_bytes text.new ≡ string_bytes text.old ++ street_line e street) }
{
    if let Some((tail, head, length)) = street {
        let line = format!(in heap; "slot {e}: {tail} to {head}, length {length}\n")?;
        text.push_str(line.as_str())?;
    }
    Ok(())
}

// The first line of a map's text.
fn head_line(heap: Global, name: &str, n: u16, m: u16, count: usize) -> Result<String, AllocError>
    ensures { IfOk result (λ s. string_bytes s ≡ head_line name.now n m count) }
{
    format!(in heap; "{name}: junctions {n}, slots {m}, streets {count}\n")
}

// The text of a map under the name of its format.
pub fn describe<M: Map>(heap: Global, name: &str, map: &M) -> Result<String, AllocError>
    ensures { IfOk result (λ s. string_bytes s ≡ map_text name.now (M.Map.graph map.now)) }
{
    let m = map.slots();
    let mut text = head_line(heap, name, map.junctions(), m, count_streets(map))?;
    for e in 1..=m {
        add_street(heap, &mut text, e, map.slot(e))?;
    }
    Ok(text)
}

// The text of a file that is refused with a number.
fn refused(heap: Global, number: u8) -> Result<String, AllocError>
    ensures { IfOk result (λ s. string_bytes s ≡ refusal_text number) }
{
    format!(in heap; "refused 0 {number}\n")
}

// The text of bytes that are taken for a map of one format, under the name of the format.
fn report_as<'a, F: MapFile<'a>>(
    heap: Global,
    name: &str,
    bytes: &'a [u8],
) -> Result<String, AllocError>
    ensures { IfOk result (λ s. string_bytes s ≡ file_text name.now (F.held bytes.now) (F.refusal bytes.now)) }
{
    let mut place = F::least();
    match F::open(bytes, &mut place) {
        Ok(()) => describe(heap, name, &place),
        Err(fault) => refused(heap, fault.number()),
    }
}

// What the bytes of a map file hold, or why they are refused.
pub fn report(heap: Global, bytes: &[u8]) -> Result<String, AllocError>
    ensures { IfOk result (λ s. string_bytes s ≡ report_of bytes.now) }
{
    if bytes.starts_with(b"\x47") {
        report_as::<Block>(heap, "block", bytes)
    } else {
        report_as::<Sheet>(heap, "sheet", bytes)
    }
}
