// The address of a scale on the bus, and of a port of a bank.
ghost use Rattle.std.specs.Prelude.{◌≡◌, ◌≤◌, if◌then◌else◌, Some, None, nat_le};
ghost use Rattle.std.specs.Option.{option_map};

use crate::addresses::Addresses;

// An address, 0 to 31: a port of a bank, and the scale over it.
#[derive(Clone, Copy)]
pub struct Address {
    pub number: u8,
    ghost low: { number ≤ 31 },
}

// The highest address.
const LAST: u8 = 31;

// How many addresses there are.
const ADDRESSES: u8 = LAST + 1;

impl Address {
    ghost use Rattle.bank.specs.Addresses.{number_of};

    // The address with this number, where there is one.
    pub fn new(number: u8) -> Option<Address>
        ensures { option_map number_of result ≡ (if nat_le number 31 then Some number else None) }
    {
        if number > LAST {
            return None;
        }
        Some(Address { number })
    }

    // All addresses, from 0 to 31, or by `rev` from 31 down to 0.
    pub fn all() -> Addresses
        ensures first { result.next ≡ 0 }
        ensures end { result.end ≡ 32 }
    {
        Addresses {
            next: 0,
            end: ADDRESSES,
        }
    }

    // The address as an index.
    pub fn index(self) -> usize
        ensures { result ≡ self.number }
    {
        self.number as usize
    }
}
