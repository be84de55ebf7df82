// A lent list of records as a source.
ghost use Rattle.std.specs.Prelude.{◌≡◌, ℕ, ◌≤◌, length, take, slice_index_or};
ghost use Rattle.bank.specs.Gauges.{fits};
ghost use Rattle.bank.specs.Fitting.{factor_at};
ghost use Rattle.bank.specs.Records.{due_at, due_of};
ghost use Rattle.bank.specs.RecordLaws.{Tallied, due_at_short};

use crate::Address;
use crate::gauges::{Gauges, Source};
use crate::record::{Cursor, Record};
use crate::scan::{first_records, found_and_counted, next_record};

// The records that count, and how far those of each port were taken.
#[derive(Drop)]
pub struct Records<'a> {
    records: &'a [Record],
    cursors: [Cursor; 32],
    ghost short: { length records.now ≤ 65535 },
    ghost tallied: { Tallied records.now cursors },
}

// Gauges whose digits were recorded: the records of one port wait in the order of the list.
pub type Recording<'a> = Gauges<Records<'a>>;

impl Source for Records<'_> {
    ghost due = { λ s. due_at s.records.now s.cursors };

    ghost short = { λ s p. due_at_short s.records.now s.cursors p s.short };

    fn left(&self, at: Address) -> u16 {
        self.cursors[at.index()].left
    }

    fn next(&mut self, at: Address) -> Option<i32> {
        let cursor = &mut self.cursors[at.index()];
        let left = cursor.left.checked_sub(1)?;
        let found = next_record(self.records, at.number, cursor.next)?;
        *cursor = Cursor {
            next: found.after,
            left,
        };
        Some(found.digits)
    }
}

impl<'a> Gauges<Records<'a>> {
    // No gauge at any port. Records after the 65,535th, and those of a port above 31, are passed over.
    pub fn new(records: &'a [Record]) -> Self
        ensures factors { factor_at result.fitting.factors ≡ fits }
        ensures records { due_at result.source.records.now result.source.cursors ≡ due_of (take 65535 records.now) }
    {
        let records = first_records(records);
        Gauges::over(Records {
            records,
            cursors: found_and_counted(records),
        })
    }
}
