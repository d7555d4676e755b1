// Appending the line of an answer or of a refusal.
ghost use Rattle.std.specs.Prelude.{◌+◌, ◌≤◌, ◌++◌, codes, decimal, length};
ghost use Rattle.commands.specs.Outcome.{printed_digits};
ghost use Rattle.output.specs.Printed.{printed};
ghost use Rattle.output.specs.Written.{answer_line, fault_line, refusal_line, Put};

use crate::buffer::Output;
use calls::Answer;
use commands::LineFault;
use itoa::{Buffer, Integer};

impl Output {
    // Appends `refused LINE NUMBER`.
    pub fn put_refusal(&mut self, line: usize, number: u8)
        ensures { Put (printed self.old) (printed self.new) 0 (refusal_line line number) }
    {
        let line = line as u64;
        let number = u64::from(number);
        self.put_pair(b"refused ", line, b" ", number);
    }

    // Appends the line of the answer to the call of a command line.
    pub fn put_answer(&mut self, line: usize, answer: Answer)
        ensures { Put (printed self.old) (printed self.new) 0 (answer_line line answer) }
    {
        match answer {
            Answer::Done => self.put_line(0, &[b"ok\n"]),
            Answer::Length(length, redone) => {
                let count = u64::from(redone);
                self.put_pair(b"length ", length, b" redone ", count);
            }
            Answer::NoWay(redone) => self.put_count(b"no way redone ", redone),
            Answer::Count(count) => self.put_count(b"tally ", count),
            Answer::Refused(fault) => self.put_refusal(line, fault.number()),
        }
    }

    // Appends the line of a command line that is no call.
    pub fn put_fault(&mut self, line: usize, fault: LineFault<'_>)
        ensures { Put (printed self.old) (printed self.new) (length (printed_digits fault.entry)) (fault_line line fault.entry) }
    {
        match fault {
            LineFault::NoForm => self.put_refusal(line, fault.number()),
            LineFault::TooLarge(digits) => {
                let mut place = Buffer::new();
                let mut reason = Buffer::new();
                let place = place.format(line).as_bytes();
                let reason = reason.format(fault.number()).as_bytes();
                self.put_line(
                    digits.len(),
                    &[b"refused ", place, b" ", reason, b" ", digits, b"\n"],
                );
            }
        }
    }

    // Appends words and a number, twice.
    fn put_pair(&mut self, words: &[u8], first: u64, more: &[u8], second: u64)
        requires { length words.now + length more.now ≤ 15 }
        ensures { Put (printed self.old) (printed self.new) 0 (words.now ++ (decimal first ++ (more.now ++ (decimal second ++ codes "\n")))) }
    {
        let mut one = Buffer::new();
        let mut two = Buffer::new();
        let one = one.format(first).as_bytes();
        let two = two.format(second).as_bytes();
        self.put_line(0, &[words, one, more, two, b"\n"]);
    }

    // Appends words and a number.
    fn put_count<N: Integer>(&mut self, words: &[u8], number: N)
        requires { length words.now ≤ 15 }
        ensures { Put (printed self.old) (printed self.new) 0 (words.now ++ (N.text number ++ codes "\n")) }
    {
        let mut count = Buffer::new();
        let count = count.format(number).as_bytes();
        self.put_line(0, &[words, count, b"\n"]);
    }
}
