// The sum of a run of counts by their encodings, both ends (document 02, "Four"; docs/MANUAL.md, "The spread of a count").
#![tactic(auto)]

ghost use Rattle.std.specs.Prelude.{◌≡◌};
ghost use Rattle.sum.specs.Sum.{summed};
ghost use Rattle.sum.specs.Total.{plus, both_ends};

use answer::Refusal;
use count::{Spread, decode};

// A sum with one number more; none where it passes 2^64 - 1, or did before.
#[tactic(auto, unfolding(crate::specs::Total::plus, crate::specs::Total::total))]
fn plus(sum: Option<u64>, n: u64) -> Option<u64>
    ensures { result ≡ plus sum n }
{
    sum?.checked_add(n)
}

// Both sums as a host is answered, or refusal 9 where one that would be answered passes 2^64 - 1.
#[tactic(auto, unfolding(crate::specs::Total::both_ends))]
fn both_ends(low: Option<u64>, high: Option<u64>, bounded: bool) -> Spread
    ensures { result ≡ both_ends low high bounded }
{
    let Some(smallest) = low else {
        return Spread::refused(Refusal::SumPasses.number());
    };
    if !bounded {
        return Spread::at_least(smallest);
    }
    let Some(largest) = high else {
        return Spread::refused(Refusal::SumPasses.number());
    };
    Spread::from_to(smallest, largest)
}

// The sum of a run of encodings. 4 is found wherever it stands, so that sums go on where they have passed 2^64 - 1.
pub fn sum(run: &[u64]) -> Spread
    ensures { result ≡ summed run.now }
{
    let mut low = Some(0);
    let mut high = Some(0);
    let mut bounded = true;
    for cc in run {
        let one = decode(*cc).spread();
        if one.number != 0 {
            return Spread::refused(Refusal::OutsideList.number());
        }
        low = plus(low, one.low);
        high = plus(high, one.high);
        bounded = bounded & (one.bounded == 1);
    }
    both_ends(low, high, bounded)
}
