// Who listens on the bus.
ghost use Rattle.std.specs.Prelude.{◌≡◌};
ghost use Rattle.terminal.specs.Ears.{ear_of, called};

use bank::Address;

// The pair of digits that selects every scale.
const BROADCAST: u8 = 98;

// Nobody listens, one address alone, or all as a broadcast.
#[derive(Clone, Copy)]
pub enum Listening {
    Nobody,
    One(Address),
    All,
}

impl Listening {
    // Whom a select with this pair of digits calls: one address, all, or nobody.
    pub fn call(pair: u8) -> Listening
        ensures { ear_of result ≡ called pair }
    {
        match Address::new(pair) {
            Some(address) => Listening::One(address),
            None if pair == BROADCAST => Listening::All,
            None => Listening::Nobody,
        }
    }
}
