// What a command says once it is read.
use crate::texts::Text;

// The commands by their initials.
#[derive(Clone, Copy, Debug, PartialEq, Eq)]
pub enum Mnemonic {
    Cof,
    Icr,
    Nov,
    Rsn,
    Ldw,
    Lwt,
    Tar,
    Tas,
    Tav,
    Msv,
    Spw,
    Dpw,
    Tdd,
    Res,
    Esr,
}

// A command enters something, or with a question mark asks for it.
#[derive(Clone, Copy, Debug, PartialEq, Eq)]
pub enum Form {
    Entry,
    Query,
}

// What stands in a command's parameter.
#[derive(Clone, Copy, Debug, PartialEq, Eq)]
pub enum Argument {
    Absent,
    Number(i32),
    Text(Text),
}

// A command that may be obeyed. `place` is the first byte of its parameter, or the command's length where it has none.
#[derive(Clone, Copy, Debug, PartialEq, Eq)]
pub struct Order {
    pub name: Mnemonic,
    pub form: Form,
    pub argument: Argument,
    pub place: usize,
}

// What the bytes of one command are: blank, a select with its pair of digits, or another command.
#[derive(Clone, Copy, Debug, PartialEq, Eq)]
pub enum Heard {
    Blank,
    Select(u8),
    Command(Order),
}
