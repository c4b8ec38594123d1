// The dividing rule (document 01): a pool goes to weights by floors, and the units left over go one
// each to the largest remainders, equal remainders to the earlier place.
#![tactic(auto)]

mod floors;
mod nearest;
mod pools;
mod refusing;
mod units;

ghost use Rattle.std.specs.Prelude.{◌≡◌, min, suc, length};
ghost use Rattle.apportion.specs.Places.{sum_of};
ghost use Rattle.apportion.specs.Dividing.{most_total, refusal, shares_after};
ghost use Rattle.apportion.specs.Refusals.{refusal_in};

pub use nearest::added_by_rounding;
use pools::WeighedPool;
pub use refusing::{Refusal, first_of, refusal_number};

// The most places of a division.
const MOST_PLACES: usize = 256;

// The largest pool.
const MOST_POOL: u64 = 1_000_000_000_000_000_000;

// The largest sum of weights.
const MOST_TOTAL: u64 = 1_000_000_000_000_000_000;

// Divides the pool over the weights into the shares. Refused, with 1, 9 or 10, it writes none.
pub fn divide(pool: u64, weights: &[u64], shares: &mut [u64]) -> Result<(), Refusal>
    ensures value { refusal_in result ≡ refusal pool (length weights.now) (length shares.old) (sum_of weights.now) }
    ensures shares_after { shares.new ≡ shares_after pool weights.now shares.old }
{
    let total = capped_total(weights);
    check_grounds(pool, weights.len(), shares.len(), total)?;
    if pool == 0 {
        // A pool of 0 gives 0 to each.
        shares.fill(0);
    } else {
        WeighedPool {
            pool,
            weights,
            total,
        }
        .share_out(shares);
    }
    Ok(())
}

// The grounds of a division, by its lengths and the sum of its weights.
#[tactic(auto, unfolding(crate::specs::Dividing::refusal))]
fn check_grounds(pool: u64, places: usize, slots: usize, total: u64) -> Result<(), Refusal>
    ensures { refusal_in result ≡ refusal pool places slots total }
{
    let unfit = (slots != places) | (places > MOST_PLACES);
    let indivisible = (pool > 0) & (total == 0);
    let too_large = (pool > MOST_POOL) | (total > MOST_TOTAL);
    first_of(&[
        (Refusal::Unfit, unfit),
        (Refusal::Indivisible, indivisible),
        (Refusal::TooLarge, too_large),
    ])
}

// The sum of the weights where that is at most 10^18, and 10^18 + 1 where it is more: the walk ends there, since the weights of a caller
// may be many.
fn capped_total(weights: &[u64]) -> u64
    ensures { result ≡ min (sum_of weights.now) (suc most_total) }
{
    let mut sum = 0;
    for &weight in weights {
        if weight > MOST_TOTAL - sum {
            return MOST_TOTAL + 1;
        }
        sum += weight;
    }
    sum
}
