// Loops over the records of a recording, with their index.
ghost use Rattle.std.specs.Prelude.{◌≡◌, ◌<◌, ◌≤◌, length, take};
ghost use Rattle.bank.specs.Records.{Nexts, due_at, due_of, noted_at};
ghost use Rattle.bank.specs.RecordLaws.{Tallied};

use crate::Address;
use crate::record::{Cursor, Found, Record};

// How many records of a list count.
pub const MOST_RECORDS: usize = 65_535;

// The records that count.
#[tactic(auto, using(std::proofs::lemmas::List::take_min))]
pub(crate) fn first_records(records: &[Record]) -> &[Record]
    ensures value { result.now ≡ take 65535 records.now }
    ensures bound { length result.now ≤ 65535 }
{
    &records[..MOST_RECORDS.min(records.len())]
}

// The cursor of a port after one record more of it, at place i.
fn noted(cursor: Cursor, i: usize) -> Cursor
    requires { cursor.left < 65535 }
    ensures { result ≡ noted_at cursor i }
{
    Cursor {
        next: if cursor.left == 0 { i } else { cursor.next },
        left: cursor.left + 1,
    }
}

// Finds the first record of each port, and counts the records of each.
pub(crate) fn found_and_counted(records: &[Record]) -> [Cursor; 32]
    requires { length records.now ≤ 65535 }
    ensures due { due_at records.now result ≡ due_of records.now }
    ensures tallied { Tallied records.now result }
{
    let mut cursors = [Cursor { next: 0, left: 0 }; 32];
    for (i, record) in records.iter().enumerate() {
        if let Some(at) = Address::new(record.port) {
            cursors[at.index()] = noted(cursors[at.index()], i);
        }
    }
    cursors
}

// Finds the next record of a port, from a place on.
pub(crate) fn next_record(records: &[Record], port: u8, from: usize) -> Option<Found>
    ensures { Nexts port records.now from result }
{
    let ahead = records.get(from..)?;
    let passed = ahead.iter().position(|record| record.port == port)?;
    Some(Found {
        digits: ahead[passed].digits,
        after: from + passed + 1,
    })
}
