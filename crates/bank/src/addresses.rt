// All addresses, in order.
ghost use Rattle.std.specs.Prelude.{◌≤◌, ◌-◌};
ghost use Rattle.std.specs.Iterator.{at_most};

use crate::Address;

// The addresses with the numbers from `next` to below `end`: in order, or by `rev` from the highest down.
#[derive(Drop)]
pub struct Addresses {
    pub next: u8,
    pub end: u8,
    ghost ordered: { next ≤ end },
    ghost within: { end ≤ 32 },
}

impl Iterator for Addresses {
    ghost use Rattle.bank.specs.Addresses.{FromFront};

    type Item = Address;

    ghost next_gives = { FromFront };

    ghost remaining = { λ s. at_most (s.end - s.next) };

    fn next(&mut self) -> Option<Address> {
        if self.next == self.end {
            return None;
        }
        let number = self.next;
        self.next += 1;
        Some(Address { number })
    }
}

impl DoubleEndedIterator for Addresses {
    ghost use Rattle.bank.specs.Addresses.{FromBack};

    ghost next_back_gives = { FromBack };

    fn next_back(&mut self) -> Option<Address> {
        if self.next == self.end {
            return None;
        }
        self.end -= 1;
        Some(Address { number: self.end })
    }
}
