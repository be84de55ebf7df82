// Wiring a box in one call.
ghost use Rattle.std.specs.Prelude.{◌≡◌, [], ◌∷◌};
ghost use Rattle.junction.specs.Feeding.{own};
ghost use Rattle.junction.specs.Gather.{boxed};
ghost use Rattle.junction.specs.Joins.{after_joins, refusal_count, refusals, CountedOnce, CountsAlone};
ghost use Rattle.junction.specs.Piles.{pile, Free, Eight, Gathers, SameGauges, Restands, TakenPiles};

use crate::{Join, JunctionBox};
use bank::GaugeBank;
use fault::Fault;

// A box as its joins made it, and how many of them were refused.
#[derive(Drop)]
pub struct WiredBox<B> {
    pub junction: JunctionBox<B>,
    pub refused: usize,
}

// 1 for a refused join, else 0.
fn refusal_count(answer: Result<(), Fault>) -> usize
    ensures { result ≡ refusal_count answer }
{
    usize::from(answer.is_err())
}

// A new box on a bank, joined as the list says, one join after another; a refused one is passed over and counted.
pub fn wired<B: GaugeBank>(bank: B, joins: &[Join]) -> WiredBox<B>
    ensures bank { result.junction.below ≡ bank }
    ensures feeds { result.junction.feeds ≡ after_joins (B.shows bank) own joins.now }
    ensures refused { result.refused ≡ refusals (B.shows bank) own joins.now }
    ensures meaning { boxed result.junction.feeds (B.shows result.junction.below) ≡ pile (B.shows bank) (joins.now ∷ []) }
    ensures counts { CountsAlone }
    ensures once { CountedOnce }
    ensures free { Free }
    ensures eight { Eight }
    ensures gathers { Gathers }
    ensures regroups { SameGauges }
    ensures restands { Restands }
    ensures taken { TakenPiles }
{
    let mut junction = JunctionBox::new(bank);
    let mut refused = 0usize;
    for join in joins {
        refused += refusal_count(junction.join(join.below, join.above));
    }
    WiredBox { junction, refused }
}
