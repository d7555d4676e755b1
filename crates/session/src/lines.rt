// The command lines after the word: their calls, the life of these, and what is printed for each line.
ghost use Rattle.std.specs.Prelude.{◌≡◌, ◌+◌, ◌≤◌, [], length};
ghost use Rattle.commands.specs.Text.{lines_of};
ghost use Rattle.output.specs.Printed.{printed};
ghost use Rattle.session.specs.Prints.{Answered};
ghost use Rattle.session.specs.Steps.{AllNoted, LinePut, Told};

use arrayvec::ArrayVec;
use calls::{Answer, Call};
use commands::{LONGEST_TEXT, Lines, read_command};
use lengths::Zeroed;
use lives::live_lines;
use maps::TwoWay;
use output::Output;

// The most lines that a text can have: each but the last has its end.
const MOST_LINES: usize = LONGEST_TEXT;

// The call of each line, and none for a line that is refused.
fn noted_calls(text: &[u8]) -> ArrayVec<Option<Call>, MOST_LINES>
    requires { length text.now ≤ LONGEST_TEXT }
    ensures { AllNoted (lines_of text.now) result.items }
{
    let mut calls = ArrayVec::new();
    for line in Lines::new(text) {
        calls.push(read_command(line).ok());
    }
    calls
}

// Puts the output line of the line at this place after the word, which is this answer if the line is a call. The first place, 0, is line 2.
fn print_line(place: usize, line: &[u8], answer: Answer, out: &mut Output)
    requires { place ≤ MOST_LINES }
    ensures { LinePut (place + 2) line.now answer (printed out.old) (printed out.new) }
{
    let number = place + 2;
    match read_command(line) {
        Ok(_) => out.put_answer(number, answer),
        Err(fault) => out.put_fault(number, fault),
    }
}

// Puts the output line of each line, with the answer in its place for a line that is a call.
fn print_lines(text: &[u8], answers: &[Answer], out: &mut Output)
    requires { (length text.now ≤ LONGEST_TEXT) × (length (lines_of text.now) ≤ length answers.now) × (printed out.old ≡ []) }
    ensures { Told 2 (lines_of text.now) answers.now (printed out.new) }
{
    for (place, (line, answer)) in Lines::new(text).zip(answers).enumerate() {
        print_line(place, line, *answer, out);
    }
}

// Works the lines of a text: the calls among them live one life over the map, and each line has its output line.
pub(crate) fn answer_lines<M: TwoWay + Drop, K: Zeroed>(map: M, text: &[u8], out: &mut Output)
    requires { (length text.now ≤ LONGEST_TEXT) × (printed out.old ≡ []) }
    ensures { Answered K.Length.kind (M.Map.graph map) (lines_of text.now) (printed out.new) }
{
    let calls = noted_calls(text);
    let mut answers = [Answer::Done; MOST_LINES];
    let _ = live_lines::<M, K, Option<Call>>(map, calls.as_slice(), &mut answers);
    print_lines(text, &answers, out);
}
