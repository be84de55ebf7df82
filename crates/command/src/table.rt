// The constant table of commands: initials, parameter kind of each form, limits and password need.
ghost use Rattle.std.specs.Prelude.{◌≡◌, true, ℤ, FitsSigned};
ghost use Rattle.std.specs.Int.{w32};
ghost use Rattle.command.specs.Arguments.{admits};
ghost use Rattle.command.specs.Table.{rows as commands, kind_of};

use crate::orders::{Form, Mnemonic};

// The numbers that a parameter may be: all from the lowest to the highest, or those of a set.
// Each of the two sets is a variant: a set by reference has an address too, which the defined table cannot state.
#[derive(Clone, Copy)]
pub(crate) enum Limits {
    Between(i32, i32),
    Formats,
    Steps,
}

impl Limits {
    // Whether the limits admit `n`; all that they admit fits 32 bits.
    pub(crate) fn admits(self, n: i64) -> bool
        ensures value { result ≡ admits self n }
        ensures small { (m : ℤ) → admits self m ≡ true → FitsSigned w32 m }
    {
        match self {
            Limits::Between(lowest, highest) => {
                (i64::from(lowest)..=i64::from(highest)).contains(&n)
            }
            Limits::Formats => FORMATS.contains(&n),
            Limits::Steps => STEPS.contains(&n),
        }
    }
}

// What a form of a command takes as its parameter.
#[derive(Clone, Copy)]
pub(crate) enum Kind {
    Nothing,
    Number(Limits),
    OptionalNumber(Limits),
    Text,
}

// Whether an entry needs the password: never, always, or where its number is 0.
#[derive(Clone, Copy)]
pub(crate) enum Need {
    Never,
    Always,
    ForZero,
}

// One command: a form that it does not have is none. `broadcast` is the highest number that it may have in a broadcast,
// where that is another than elsewhere.
#[derive(Clone, Copy)]
pub(crate) struct Row {
    pub initials: [u8; 3],
    pub name: Mnemonic,
    pub entry: Option<Kind>,
    pub query: Option<Kind>,
    pub password: Need,
    pub broadcast: Option<i32>,
}

// The output formats, and each with 32 added, which drops the line end.
const FORMATS: [i64; 16] = [0, 2, 3, 4, 6, 8, 9, 12, 32, 34, 35, 36, 38, 40, 41, 44];

// The display steps.
const STEPS: [i64; 7] = [1, 2, 5, 10, 20, 50, 100];

// The most values that one command asks for.
pub const MOST_VALUES: usize = 64;

const ROWS: [Row; 15] = [
    Row {
        initials: *b"COF",
        name: Mnemonic::Cof,
        entry: Some(Kind::Number(Limits::Formats)),
        query: Some(Kind::Nothing),
        password: Need::Never,
        broadcast: None,
    },
    Row {
        initials: *b"ICR",
        name: Mnemonic::Icr,
        entry: Some(Kind::Number(Limits::Between(0, 4))),
        query: Some(Kind::Nothing),
        password: Need::Never,
        broadcast: None,
    },
    Row {
        initials: *b"NOV",
        name: Mnemonic::Nov,
        entry: Some(Kind::Number(Limits::Between(0, 1_599_999))),
        query: Some(Kind::Nothing),
        password: Need::Always,
        broadcast: None,
    },
    Row {
        initials: *b"RSN",
        name: Mnemonic::Rsn,
        entry: Some(Kind::Number(Limits::Steps)),
        query: Some(Kind::Nothing),
        password: Need::Never,
        broadcast: None,
    },
    Row {
        initials: *b"LDW",
        name: Mnemonic::Ldw,
        entry: Some(Kind::OptionalNumber(Limits::Between(-1_599_999, 1_599_999))),
        query: Some(Kind::Nothing),
        password: Need::Always,
        broadcast: None,
    },
    Row {
        initials: *b"LWT",
        name: Mnemonic::Lwt,
        entry: Some(Kind::OptionalNumber(Limits::Between(-1_599_999, 1_599_999))),
        query: Some(Kind::Nothing),
        password: Need::Always,
        broadcast: None,
    },
    Row {
        initials: *b"TAR",
        name: Mnemonic::Tar,
        entry: Some(Kind::Nothing),
        query: None,
        password: Need::Never,
        broadcast: None,
    },
    Row {
        initials: *b"TAS",
        name: Mnemonic::Tas,
        entry: Some(Kind::Number(Limits::Between(0, 1))),
        query: Some(Kind::Nothing),
        password: Need::Never,
        broadcast: None,
    },
    Row {
        initials: *b"TAV",
        name: Mnemonic::Tav,
        entry: None,
        query: Some(Kind::Nothing),
        password: Need::Never,
        broadcast: None,
    },
    Row {
        initials: *b"MSV",
        name: Mnemonic::Msv,
        entry: None,
        query: Some(Kind::OptionalNumber(Limits::Between(1, MOST_VALUES as i32))),
        password: Need::Never,
        broadcast: Some(1),
    },
    Row {
        initials: *b"SPW",
        name: Mnemonic::Spw,
        entry: Some(Kind::Text),
        query: None,
        password: Need::Never,
        broadcast: None,
    },
    Row {
        initials: *b"DPW",
        name: Mnemonic::Dpw,
        entry: Some(Kind::Text),
        query: None,
        password: Need::Never,
        broadcast: None,
    },
    Row {
        initials: *b"TDD",
        name: Mnemonic::Tdd,
        entry: Some(Kind::Number(Limits::Between(0, 1))),
        query: None,
        password: Need::ForZero,
        broadcast: None,
    },
    Row {
        initials: *b"RES",
        name: Mnemonic::Res,
        entry: Some(Kind::Nothing),
        query: None,
        password: Need::Never,
        broadcast: None,
    },
    Row {
        initials: *b"ESR",
        name: Mnemonic::Esr,
        entry: None,
        query: Some(Kind::Nothing),
        password: Need::Never,
        broadcast: None,
    },
];

// The table, row for row as it is defined.
pub(crate) fn table() -> &'static [Row; 15]
    ensures { result.now ≡ commands }
{
    &ROWS
}

impl Row {
    // What the command takes in a form, if it has that form.
    pub(crate) fn kind(&self, form: Form) -> Option<Kind>
        ensures { result ≡ kind_of self.now form }
    {
        *match form {
            Form::Entry => &self.entry,
            Form::Query => &self.query,
        }
    }
}
