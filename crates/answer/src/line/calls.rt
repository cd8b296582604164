//! Writing an output line.
ghost use Rattle.std.specs.Prelude.{◌≡◌, ◌+◌, ◌≤◌, [], ◌++◌, length, take, drop, decimal};
ghost use Rattle.answer.specs.Written.{line_for, told};
ghost use Rattle.answer.specs.Lines.{text_of};

use crate::Answer;
use crate::line::OutputLine;
use notation::decimal;

/// Lays bytes into a buffer, from the place `at` on.
fn put(buffer: &mut [u8], at: usize, bytes: &[u8])
    requires { at + length bytes.now ≤ length buffer.old }
    ensures front { take (at + length bytes.now) buffer.new ≡ take at buffer.old ++ bytes.now }
    ensures behind { drop (at + length bytes.now) buffer.new ≡ drop (at + length bytes.now) buffer.old }
{
    buffer[at..at + bytes.len()].copy_from_slice(bytes);
}

impl OutputLine {
    fn new() -> OutputLine
        ensures text { text_of result ≡ [] }
        ensures len { result.len ≡ 0 }
    {
        OutputLine {
            bytes: [0; 80],
            len: 0,
        }
    }

    /// Adds bytes at the end.
    fn push(&mut self, bytes: &[u8])
        requires { self.old.len + length bytes.now ≤ 80 }
        ensures text { text_of self.new ≡ text_of self.old ++ bytes.now }
        ensures len { self.new.len ≡ self.old.len + length bytes.now }
    {
        let at = self.len;
        put(&mut self.bytes, at, bytes);
        self.len = at + bytes.len();
    }

    /// Adds a number in decimal.
    fn push_number(&mut self, number: u64)
        requires { self.old.len + 20 ≤ 80 }
        ensures text { text_of self.new ≡ text_of self.old ++ decimal number }
        ensures len { self.new.len ≤ self.old.len + 20 }
    {
        let mut digits = [0u8; decimal::MOST_DIGITS];
        let start = decimal::write(number, &mut digits);
        self.push(&digits[start..]);
    }

    /// Adds what is reported of an answer.
    fn push_answer(&mut self, answer: Answer)
        requires { self.old.len + 41 ≤ 80 }
        ensures text { text_of self.new ≡ text_of self.old ++ told answer }
        ensures len { self.new.len ≤ self.old.len + 41 }
    {
        match answer {
            Ok(()) => self.push(b"ok"),
            Err(refusal) => {
                self.push_number(u64::from(refusal.number()));
                if let Some(place) = refusal.place() {
                    self.push(b"\t");
                    self.push_number(place as u64);
                }
            }
        }
    }

    /// The line that reports the answer to the line of this number.
    pub fn report(number: u64, answer: Answer) -> OutputLine
        ensures { text_of result ≡ line_for number answer }
    {
        let mut line = OutputLine::new();
        line.push_number(number);
        line.push(b"\t");
        line.push_answer(answer);
        line.push(b"\n");
        line
    }

    pub fn as_bytes(&self) -> &[u8]
        ensures value { result.now ≡ text_of self.now }
        ensures fits { length result.now ≤ 80 }
    {
        &self.bytes[..self.len]
    }
}
