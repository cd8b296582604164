//! What the lines of a command file set up: the scheme, and the lists of accounts, offices and sheets.
ghost use Rattle.std.specs.Prelude.{◌≡◌, length, Some, None};
ghost use Rattle.std.specs.Option.{option_map};
ghost use Rattle.command.specs.Commands.{spoken};
ghost use Rattle.session.specs.Replies.{Gives, begun, fresh, has_ended, listed, reply};
ghost use Rattle.session.specs.Soundness.{Sound, StaysSound};

use answer::Answer;
use command::{Command, Scheme};
use refusal::Refusal;
use register::lists;
use register::rows::{Account, Office, Sheet};
use register::table::Register;
use std::marker::Model;

/// How far a run has come.
#[derive(Clone, Copy)]
pub enum Phase {
    /// The scheme is to be chosen.
    Start,
    /// Lists are being filled.
    Lists(Scheme),
    /// The first line did not choose a scheme: no further line is looked at.
    Ended,
}

/// What the lines so far have set up.
#[derive(Drop)]
pub struct Setup<'a> {
    phase: Phase,
    accounts: Register<'a, Account>,
    offices: Register<'a, Office>,
    sheets: Register<'a, Sheet>,
}

// Clauses see the state. Whatever the lines, its lists are sound.
impl<'a> Model for Setup<'a> {
    ghost use Rattle.register.specs.Listing.{listing};
    ghost use Rattle.register.specs.Table.{shown};
    ghost use Rattle.session.specs.Replies.{State, state_in};
    ghost use Rattle.session.specs.Soundness.{Sound};

    ghost Value = { State };

    ghost view = { λ s. state_in s.phase s.accounts s.offices (shown listing s.sheets) };

    ghost invariant = { λ s. Sound (state_in s.phase s.accounts s.offices (shown listing s.sheets)) };
}

impl<'a> Setup<'a> {
    /// Before the first line, with empty lists in the memory lent for them.
    pub fn new(
        accounts: &'a mut [Account],
        offices: &'a mut [Office],
        sheets: &'a mut [Sheet],
    ) -> Setup<'a>
        ensures empty { result ≡ fresh (length accounts.old) (length offices.old) (length sheets.old) }
        ensures sound { StaysSound result }
    {
        Setup {
            phase: Phase::Start,
            accounts: Register::new(accounts),
            offices: Register::new(offices),
            sheets: Register::new(sheets),
        }
    }

    /// Answers the next line by the command that it spells, if it spells one.
    pub fn respond(&mut self, command: Option<Command<&[u8]>>) -> Answer
        ensures reply { Gives (reply self.old (option_map spoken command.entry)) result self.new }
        ensures sound { Sound self.new }
    {
        match (self.phase, command) {
            (Phase::Start, Some(Command::Scheme(scheme))) => self.begin(scheme),
            (Phase::Lists(_), Some(command)) => self.list(command),
            _ => self.refuse(),
        }
    }

    /// Carries out a first line that chooses the scheme.
    fn begin(&mut self, scheme: Scheme) -> Answer
        ensures { Gives (begun self.old (Some scheme)) result self.new }
    {
        self.phase = Phase::Lists(scheme);
        Ok(())
    }

    /// Answers a line that cannot be read or is out of place. If it is the first, the run ends with it.
    fn refuse(&mut self) -> Answer
        ensures { Gives (reply self.old None) result self.new }
    {
        if let Phase::Start = self.phase {
            self.phase = Phase::Ended;
        }
        Err(Refusal::UnreadableLine)
    }

    /// Carries out a command while the lists are filled.
    fn list(&mut self, command: Command<&[u8]>) -> Answer
        ensures reply { Gives (listed self.old (spoken command.entry)) result self.new }
        ensures sound { Sound self.new }
    {
        match command {
            Command::Scheme(_) => Err(Refusal::UnreadableLine),
            Command::Account { number, key } => self.accounts.add(Account { number, key }),
            Command::Office { number, key } => lists::add_office(&mut self.offices, number, key),
            Command::Sheet {
                path,
                account,
                cards,
            } => lists::add_sheet(&mut self.sheets, path, account, cards),
        }
    }

    /// Whether no further line is looked at.
    pub fn has_ended(&self) -> bool
        ensures { result ≡ has_ended self.now }
    {
        matches!(self.phase, Phase::Ended)
    }
}
