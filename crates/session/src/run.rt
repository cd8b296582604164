//! A run over a file, byte by byte: the line being read, its number, and what the lines before it have set up.
ghost use Rattle.std.specs.Prelude.{◌≡◌, ℕ, false, List, [], ◌++◌, ◌≢◌};
ghost use Rattle.answer.specs.Lines.{text_of};
ghost use Rattle.session.specs.Files.{ended_lines, output, printed, text_in};
ghost use Rattle.session.specs.Progress.{Reached, Takes};
ghost use Rattle.session.specs.Replies.{State, has_ended};

use crate::setup::Setup;
use answer::line::OutputLine;
use command::line::LineBuffer;
use command::reading;
use refusal::Refusal;

/// A line feed ends a line.
const LINE_FEED: u8 = b'\n';

/// A run over a command file, as far as its bytes have been taken.
#[derive(Drop)]
pub struct Run<'a> {
    setup: Setup<'a>,
    line: LineBuffer,
    number: u64,
}

impl<'a> Run<'a> {
    /// A run that has not taken a byte yet.
    pub fn new(setup: Setup<'a>) -> Run<'a>
        ensures { Reached result setup.entry [] }
    {
        Run {
            setup,
            line: LineBuffer::new(),
            number: 1,
        }
    }

    /// Takes the next byte of the file, and gives what is printed for the line that it ends, if it ends one.
    pub fn take(&mut self, byte: u8) -> Option<OutputLine>
        ensures { Takes self.old byte (text_in result) self.new }
    {
        if self.has_ended() {
            return None;
        }
        if byte != LINE_FEED {
            self.extend_line(byte);
            return None;
        }
        Some(self.end_line())
    }

    /// Takes a byte that does not end the line.
    fn extend_line(&mut self, byte: u8)
        requires { byte ≢ 10 }
        ensures { Takes self.old byte [] self.new }
    {
        self.line.push(byte);
    }

    /// Takes a line feed: answers the line, and begins the next.
    fn end_line(&mut self) -> OutputLine
        requires { has_ended self.old.setup ≡ false }
        ensures { Takes self.old 10 (text_of result) self.new }
    {
        let answer = self.setup.respond(reading::read_buffer(&self.line));
        let output = OutputLine::report(self.number, answer);
        self.line.clear();
        self.number = self.number.saturating_add(1);
        output
    }

    /// What is printed where the file ends here, after the last line that a line feed ended.
    pub fn finish(&self) -> Option<OutputLine>
        ensures { (start : State) (file : List ℕ) → Reached self.now start file → output start file ≡ printed start 1 (ended_lines file) ++ text_in result }
    {
        if self.has_ended() || self.line.is_empty() {
            return None;
        }
        Some(OutputLine::report(self.number, Err(Refusal::UnreadableLine)))
    }

    /// Whether the run has ended before the file: no further byte is looked at.
    pub fn has_ended(&self) -> bool
        ensures { result ≡ has_ended self.now.setup }
    {
        self.setup.has_ended()
    }
}
