//! Adding to the lists whose rows have limits of their own. (Any account may be added, so `Register::add` serves for those.)
ghost use Rattle.register.specs.Adding.{Adds};
ghost use Rattle.register.specs.Listing.{listing, most_offices, most_sheets, number_name, office_checks, path_checks};
ghost use Rattle.register.specs.Table.{shown};

use crate::path::SheetPath;
use crate::rows::{Office, Sheet};
use crate::table::Register;
use refusal::Refusal;

/// Lists an office. Its number is 1 to 4.
pub fn add_office(offices: &mut Register<Office>, number: u16, key: [u8; 32]) -> Result<(), Refusal>
    ensures { Adds number_name most_offices (office_checks number) record { number = number; key = key } offices.old result offices.new }
{
    if number < 1 || number > 4 {
        return Err(Refusal::WrongOffice);
    }
    offices.add(Office {
        number: number as u8,
        key,
    })
}

/// Lists a sheet. Its path has 1 to 40 bytes.
pub fn add_sheet(
    sheets: &mut Register<Sheet>,
    path: &[u8],
    account: u16,
    cards: u32,
) -> Result<(), Refusal>
    ensures { Adds (λ l. l.path) most_sheets (path_checks path.entry.now) record { path = path.entry.now; account = account; cards = cards } (shown listing sheets.old) result (shown listing sheets.new) }
{
    let path = SheetPath::new(path).ok_or(Refusal::WrongLength)?;
    sheets.add(Sheet {
        path,
        account,
        cards,
    })
}
