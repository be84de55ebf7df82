// Finds the row of a command by its initials or by its name.
ghost use Rattle.std.specs.Prelude.{◌≡◌, ◌<◌};
ghost use Rattle.std.specs.Option.{option_map};
ghost use Rattle.std.specs.Borrow.{Bor};
ghost use Rattle.command.specs.declared.table.Row.{Row as TheRow};
ghost use Rattle.command.specs.Table.{rows, row_of, place_of, lookup, in_capitals, capitals_of};

use crate::orders::Mnemonic;
use crate::table::{Row, table};

// Initials in capitals.
fn capitals(initials: [u8; 3]) -> [u8; 3]
    ensures { result ≡ in_capitals initials }
{
    initials.map(|b| b.to_ascii_uppercase())
}

// Whether initials in capitals are those of a row.
fn has(row: &Row, capitals: [u8; 3]) -> bool
    ensures { result ≡ capitals_of row.now.initials capitals }
{
    row.initials == capitals
}

// The place of a command's row.
fn place(name: Mnemonic) -> usize
    ensures value { result ≡ place_of name }
    ensures within { result < 15 }
{
    name as usize
}

// The row of a command.
pub(crate) fn row_of(name: Mnemonic) -> &'static Row
    ensures { result.now ≡ row_of name }
{
    &table()[place(name)]
}

// The row with these initials, in either case: the first of the table that has them in capitals.
pub(crate) fn find(initials: [u8; 3]) -> Option<&'static Row>
    ensures { option_map (λ (r : Bor TheRow). r.now) result ≡ lookup rows initials }
{
    let capitals = capitals(initials);
    table().iter().find(|row| has(row, capitals))
}
