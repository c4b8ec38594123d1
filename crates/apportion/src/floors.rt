// The floors of pool × weight by the total and their remainders, bit by bit: the product is never formed.
ghost use Rattle.std.specs.Prelude.{◌≡◌, ◌+◌, ◌*◌, ◌/◌, ◌%◌, ◌≤◌, ◌<◌, length};
ghost use Rattle.apportion.specs.Places.{list_below};
ghost use Rattle.apportion.specs.Dividing.{most_pool, most_total, floor_at, remainder_at, left_over};
ghost use Rattle.apportion.specs.Inner.Products.{Powers};

use crate::pools::WeighedPool;

// A number by its quotient and its remainder.
#[derive(Clone, Copy, Default)]
pub struct Division {
    pub quotient: u64,
    pub remainder: u64,
}

impl Division {
    // The sum of two numbers that are held by the same total.
    fn plus(self, other: Division, total: u64) -> Division
        requires quotient_le_most_pool { (self.quotient ≤ most_pool) × (other.quotient ≤ most_pool) }
        requires remainder_lt_total { (self.remainder < total) × (other.remainder < total) × (total ≤ most_total) }
        ensures remainder_value { result.quotient * total + result.remainder ≡ (self.quotient + other.quotient) * total + (self.remainder + other.remainder) }
        ensures remainder_lt_total_2 { result.remainder < total }
    {
        let quotient = self.quotient + other.quotient;
        let remainder = self.remainder + other.remainder;
        if remainder >= total {
            return Division {
                quotient: quotient + 1,
                remainder: remainder - total,
            };
        }
        Division {
            quotient,
            remainder,
        }
    }
}

// Writes pool × 2 ^ bit by the total for each bit that a weight within the total can have.
pub fn set_powers(of: WeighedPool, by_bit: &mut [Division; 60])
    ensures { Powers of.entry.pool of.entry.total by_bit.new }
{
    let WeighedPool { pool, total, .. } = of;
    let mut power = Division {
        quotient: pool / total,
        remainder: pool % total,
    };
    let mut step = 1;
    for place in by_bit.iter_mut() {
        if step > total {
            break;
        }
        *place = power;
        power = power.plus(power, total);
        step += step;
    }
}

// A pool, with its powers. The table is lent: as a field by value it is copied, and the archive for C then asks for memcpy.
#[derive(Drop)]
pub struct PowersOfPool<'a> {
    pub of: WeighedPool<'a>,
    pub by_bit: &'a [Division; 60],
    ghost powers: { Powers of.pool of.total by_bit.now },
}

impl<'a> PowersOfPool<'a> {
    // pool × weight by the total: the sum of the powers of this pool at the weight's bits.
    #[tactic(auto, using(crate::proofs::Powers::bit_small))]
    fn times(&self, weight: u64) -> Division
        requires weight_le_total { weight ≤ self.now.of.total }
        ensures { (result.quotient ≡ self.now.of.pool * weight / self.now.of.total) × (result.remainder ≡ self.now.of.pool * weight % self.now.of.total) }
    {
        let mut sum = Division::default();
        let mut rest = weight;
        // One turn for each bit that is set: a `for` over all of them costs up to 35 % more.
        while rest > 0 {
            let bit = rest.ilog2();
            sum = sum.plus(self.by_bit[bit as usize], self.of.total);
            rest -= 1 << bit;
        }
        sum
    }

    // Writes each place's floor and remainder, and answers the units left over. Two slices as long as the weights: the floors are the caller's
    // shares, also C's.
    pub fn set_floors(&self, floors: &mut [u64], remainders: &mut [u64]) -> u64
        requires { (length floors.old ≡ length self.now.of.weights.now) × (length remainders.old ≡ length self.now.of.weights.now) }
        ensures value { result ≡ left_over self.now.of.pool self.now.of.weights.now }
        ensures floors_after { floors.new ≡ list_below (length self.now.of.weights.now) (floor_at self.now.of.pool self.now.of.weights.now) }
        ensures remainders_after { remainders.new ≡ list_below (length self.now.of.weights.now) (remainder_at self.now.of.pool self.now.of.weights.now) }
    {
        let mut left = self.of.pool;
        // By index: of a zip over iter_mut the library does not say what was written.
        for (k, &weight) in self.of.weights.iter().enumerate() {
            let part = self.times(weight);
            floors[k] = part.quotient;
            remainders[k] = part.remainder;
            left -= part.quotient;
        }
        left
    }
}
