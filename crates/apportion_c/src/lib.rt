// The dividing rule (document 01) for a program in C or in Rust, which passes a slice as its pointer and
// its length.
#![tactic(auto)]

ghost use Rattle.std.specs.Prelude.{◌≡◌, length};
ghost use Rattle.apportion.specs.Places.{sum_of};
ghost use Rattle.apportion.specs.Dividing.{refusal, shares_after};

// Divides the pool over the weights into the shares, and answers the refusal number: 1, 9 or 10 with
// no share written, or 0.
#[unsafe(no_mangle)]
pub extern "C" fn quaymeter_divide(pool: u64, weights: &[u64], shares: &mut [u64]) -> u64
    ensures value { result ≡ refusal pool (length weights.now) (length shares.old) (sum_of weights.now) }
    ensures shares_after { shares.new ≡ shares_after pool weights.now shares.old }
{
    apportion::refusal_number(apportion::divide(pool, weights, shares))
}
