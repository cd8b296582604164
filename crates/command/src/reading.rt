//! Reading a line: its letter chooses the command, and each command has its own fields.
ghost use Rattle.std.specs.Prelude.{◌≡◌};
ghost use Rattle.std.specs.Option.{option_map};
ghost use Rattle.command.specs.Commands.{asked, command_in, spoken, number_and_key, scheme_line, sheet_line};

use crate::line::LineBuffer;
use crate::{Command, Scheme};
use notation::fields::Fields;
use notation::{decimal, hex};

/// Fields are parted by tabs.
const TAB: u8 = b'\t';

/// The command that a line spells, if it spells one.
pub fn read(line: &[u8]) -> Option<Command<&[u8]>>
    ensures { option_map spoken result ≡ command_in line.now }
{
    let fields = Fields::new(line, TAB);
    let [letter] = fields.nth(0) else {
        return None;
    };
    match char::from(*letter) {
        'S' => Some(Command::Scheme(read_scheme(&fields)?)),
        'A' => {
            let (number, key) = read_number_and_key(&fields)?;
            Some(Command::Account { number, key })
        }
        'O' => {
            let (number, key) = read_number_and_key(&fields)?;
            Some(Command::Office { number, key })
        }
        'F' => read_sheet(&fields),
        _ => None,
    }
}

/// The command that the line in a buffer spells, if it spells one.
pub fn read_buffer(buffer: &LineBuffer) -> Option<Command<&[u8]>>
    ensures { option_map spoken result ≡ asked buffer.now }
{
    read(buffer.text()?)
}

/// The scheme: 1 or 2.
fn read_scheme(fields: &Fields<'_>) -> Option<Scheme>
    ensures { result ≡ scheme_line fields.now }
{
    if fields.count() != 2 {
        return None;
    }
    let number = decimal::read_as::<u16>(fields.nth(1))?;
    Scheme::try_from(number).ok()
}

/// The number and the key of an account or an office.
fn read_number_and_key(fields: &Fields<'_>) -> Option<(u16, [u8; 32])>
    ensures { result ≡ number_and_key fields.now }
{
    if fields.count() != 3 {
        return None;
    }
    let number = decimal::read_as(fields.nth(1))?;
    let key = hex::decode_array(fields.nth(2))?;
    Some((number, key))
}

/// The path, account and cards of a sheet file.
fn read_sheet<'a>(fields: &Fields<'a>) -> Option<Command<&'a [u8]>>
    ensures { option_map spoken result ≡ sheet_line fields.now }
{
    if fields.count() != 4 {
        return None;
    }
    let path = fields.nth(1);
    let account = decimal::read_as(fields.nth(2))?;
    let cards = decimal::read_as(fields.nth(3))?;
    Some(Command::Sheet {
        path,
        account,
        cards,
    })
}
