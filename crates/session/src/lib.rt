// A session: from the bytes of a map file and a command text to the printed text.
//
// Promised, for all bytes and every text: just the lines that specs/Prints defines are put into the output, by the opening's refusal,
// the grammar of lines, the life of the calls and the written form of each answer. Nothing is expected of the caller and nothing
// fails: the memory is the output's. At most the first 5,637 bytes of the map and a text of at most 4,096 bytes count.
// Not promised: where bytes and text come from, or when the output is printed.
#![tactic(auto)]

ghost use Rattle.std.specs.Prelude.{◌≡◌, ◌≤◌, [], length};
ghost use Rattle.commands.specs.Text.{lines_of};
ghost use Rattle.output.specs.Printed.{printed};
ghost use Rattle.session.specs.Prints.{Answered, Prints, PrintsOnce, PrintsOver, PrintsText, counted, is_block, kind_of};

mod lines;

use block::Block;
use commands::{KindWord, LONGEST_TEXT, open_text};
use formats::MapFile;
use lengths::{Gates, Paces, kinds_are_lawful};
use lines::answer_lines;
use maps::TwoWay;
use output::Output;
use sheet::Sheet;

// How many bytes of a map file count: one more than the longest lawful file has.
const LONGEST_MAP: usize = 5_637;

// Map, text and output pass through the next two functions and `answer_lines` one by one: each takes the map over and leaves less of the
// text. Each says of its own that the output is empty: a type for that would stand for one moment of one call.

// Works the command lines with the kind of length that the word names, into an empty output.
fn answer_kind<M: TwoWay + Drop>(map: M, kind: KindWord, text: &[u8], out: &mut Output)
    requires { (length text.now ≤ LONGEST_TEXT) × (printed out.old ≡ []) }
    ensures { Answered (kind_of kind) (M.Map.graph map) (lines_of text.now) (printed out.new) }
{
    match kind {
        KindWord::Paces => answer_lines::<M, Paces>(map, text, out),
        KindWord::Gates => answer_lines::<M, Gates>(map, text, out),
    }
}

// Runs a text over an opened map, into an empty output.
fn run_on<M: TwoWay + Drop>(map: M, text: &[u8], out: &mut Output)
    requires { printed out.old ≡ [] }
    ensures { PrintsText (M.Map.graph map) text.now (printed out.new) }
{
    match open_text(text) {
        Ok((kind, rest)) => answer_kind(map, kind, rest, out),
        Err(fault) => out.put_refusal(1, fault.number()),
    }
}

// Runs a text over bytes that are taken for a map file of one format, into an empty output.
fn run_file<'a, F: MapFile<'a>>(bytes: &'a [u8], text: &[u8], out: &mut Output)
    requires { printed out.old ≡ [] }
    ensures { PrintsOver (F.refusal bytes.now) (F.held bytes.now) text.now (printed out.new) }
{
    let mut place = F::least();
    match F::open(bytes, &mut place) {
        Ok(()) => run_on(place, text, out),
        Err(fault) => out.put_refusal(0, fault.number()),
    }
}

// The bytes of a map file that count.
fn counting(map: &[u8]) -> &[u8]
    ensures { result.now ≡ counted map.now }
{
    &map[..map.len().min(LONGEST_MAP)]
}

// Whether the bytes are taken for a block; else they are taken for a sheet.
fn is_block(bytes: &[u8]) -> bool
    ensures { result ≡ is_block bytes.now }
{
    bytes.starts_with(b"\x47")
}

// Runs a command text over the bytes of a map file. What the output held before is cleared.
pub fn run_text(map: &[u8], text: &[u8], out: &mut Output)
    ensures { Prints map.now text.now (printed out.new) }
{
    out.clear();
    let bytes = counting(map);
    if is_block(bytes) {
        run_file::<Block>(bytes, text, out);
    } else {
        run_file::<Sheet>(bytes, text, out);
    }
}

// The theorem that what is defined to be printed for bytes and a text is one text; it answers 0 and does nothing else.
pub fn session_prints_once() -> u8
    ensures once { PrintsOnce }
    ensures zero { result ≡ 0 }
{
    kinds_are_lawful();
    0
}
