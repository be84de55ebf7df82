// The feeding map of a junction box.
ghost use Rattle.std.specs.Prelude.{◌≡◌, ◌+◌, ◌-◌};
ghost use Rattle.std.specs.Option.{option_map};
ghost use Rattle.bank.specs.Addresses.{number_of};
ghost use Rattle.junction.specs.Feeding.{fed, own, moved, next_from};
ghost use Rattle.junction.specs.Chains.{mapped, Chained, LastBefore};

use bank::Address;
use std::marker::Model;

// The chain of each port above: the first port below that feeds it, and from each port below the next that feeds the same. Each chain ascends.
#[derive(Clone, Copy)]
struct Chains {
    first: [Option<Address>; 32],
    next: [Option<Address>; 32],
}

impl Chains {
    ghost use Rattle.junction.specs.Chains.{first_put, next_put};

    // Makes a port the next after another in the chain of a port above, or its first. With none the chain ends there.
    fn put(&mut self, above: Address, after: Option<Address>, port: Option<Address>)
        ensures first { self.new.first ≡ first_put self.old.first above.number after port }
        ensures next { self.new.next ≡ next_put self.old.next after port }
    {
        match after {
            None => self.first[above.index()] = port,
            Some(q) => self.next[q.index()] = port,
        }
    }
}

// The chains of a whole map, found from the highest port down. Where one port moves, `turned` does not make them anew.
fn chained(joined: &[Option<Address>; 32]) -> Chains
    ensures { Chained (fed (mapped joined.now)) result.first result.next }
{
    let mut first = [None; 32];
    let mut next = [None; 32];
    for below in Address::all().rev() {
        let above = joined[below.index()].unwrap_or(below);
        next[below.index()] = first[above.index()];
        first[above.index()] = Some(below);
    }
    Chains { first, next }
}

// The port above that each port below was joined to. One that was not joined feeds the port of its own number. With it stand the chains, so that a walk meets only the ports that feed a port.
#[derive(Drop)]
pub struct Feeds {
    joined: [Option<Address>; 32],
    chains: Chains,
}

impl Model for Feeds {
    ghost use Rattle.junction.specs.Feeding.{FeedMap, fed};
    ghost use Rattle.junction.specs.Chains.{mapped, Chained};

    ghost Value = { FeedMap };

    ghost view = { λ a. mapped a.joined };

    ghost invariant = { λ a. Chained (fed (mapped a.joined)) a.chains.first a.chains.next };
}

impl Feeds {
    // The map of these joins.
    fn of(joined: [Option<Address>; 32]) -> Feeds
        ensures { result ≡ mapped joined }
    {
        let chains = chained(&joined);
        Feeds { joined, chains }
    }

    // The map of a new box: no port was joined.
    pub fn new() -> Feeds
        ensures { result ≡ own }
    {
        Feeds::of([None; 32])
    }

    // The map in which a port below feeds another port above. The port leaves the chain of the one that it fed, and comes into that of the one that it is to feed; no other chain alters, so that a walk along these two is enough.
    pub fn turned(&self, below: Address, above: Address) -> Feeds
        ensures { result ≡ moved self.now below.number above.number }
    {
        let mut turned = Feeds {
            joined: self.joined,
            chains: self.chains,
        };
        turned.joined[below.index()] = Some(above);
        let fed = self.above(below);
        if fed.number != above.number {
            let previous = self.last_before(fed, below);
            turned.chains.put(fed, previous, self.next(below));
            let before = self.last_before(above, below);
            let after = match before {
                None => self.first(above),
                Some(q) => self.next(q),
            };
            turned.chains.next[below.index()] = after;
            turned.chains.put(above, before, Some(below));
        }
        turned
    }

    // The port above that a port below feeds.
    fn above(&self, below: Address) -> Address
        ensures { result.number ≡ fed self.now below.number }
    {
        self.joined[below.index()].unwrap_or(below)
    }

    // The last port that feeds a port above and comes before a port below. Its chain ascends, so that the walk ends at the first port that is not before that one.
    fn last_before(&self, above: Address, below: Address) -> Option<Address>
        ensures { LastBefore (fed self.now) above.number below.number (option_map number_of result) }
    {
        let mut last = None;
        let mut at = self.first(above);
        while let Some(q) = at {
            if q.number >= below.number {
                break;
            }
            last = Some(q);
            at = self.next(q);
        }
        last
    }

    // The first port below that feeds a port above.
    pub fn first(&self, above: Address) -> Option<Address>
        ensures { option_map number_of result ≡ next_from (fed self.now) above.number 0 32 }
    {
        self.chains.first[above.index()]
    }

    // The next port after one below that feeds the same port above.
    pub fn next(&self, below: Address) -> Option<Address>
        ensures { option_map number_of result ≡ next_from (fed self.now) (fed self.now below.number) (below.number + 1) (31 - below.number) }
    {
        self.chains.next[below.index()]
    }
}
