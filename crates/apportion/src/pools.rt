// A pool that is divided, and the shares of its weights.
ghost use Rattle.std.specs.Prelude.{◌≡◌, length};
ghost use Rattle.apportion.specs.Places.{list_below};
ghost use Rattle.apportion.specs.Dividing.{remainder_at, divided};
ghost use Rattle.apportion.specs.Inner.Products.{Accepted};

use crate::MOST_PLACES;
use crate::floors::{Division, PowersOfPool, set_powers};
use crate::units::{add_units, unit_bound};

// A pool above 0, the weights that it goes to, and their sum, where no ground refuses the division.
#[derive(Clone, Copy)]
pub struct WeighedPool<'a> {
    pub pool: u64,
    pub weights: &'a [u64],
    pub total: u64,
    ghost accepted: { Accepted pool total weights.now },
}

impl<'a> WeighedPool<'a> {
    // Writes the shares.
    pub fn share_out(self, shares: &mut [u64])
        requires { length shares.old ≡ length self.weights.now }
        ensures { shares.new ≡ divided self.entry.pool self.entry.weights.now }
    {
        // An array, cut: its length is that of the weights from the start, so a list that grows is no plainer.
        let mut space = [0; MOST_PLACES];
        self.share_some(shares, &mut space[..self.weights.len()]);
    }

    // Writes the shares, with their remainders beside them: in two slices, since as one array of divisions the same rule, tried as a
    // program in Rust on the weights of bench/divide, costs 5 to 30 % more.
    fn share_some(self, shares: &mut [u64], remainders: &mut [u64])
        requires { (length shares.old ≡ length self.weights.now) × (length remainders.old ≡ length self.weights.now) }
        ensures shares_after { shares.new ≡ divided self.entry.pool self.entry.weights.now }
        ensures remainders_after { remainders.new ≡ list_below (length self.entry.weights.now) (remainder_at self.entry.pool self.entry.weights.now) }
    {
        let mut by_bit = [Division::default(); 60];
        set_powers(self, &mut by_bit);
        let powers = PowersOfPool {
            of: self,
            by_bit: &by_bit,
        };
        let left = powers.set_floors(shares, remainders);
        let least = unit_bound(remainders, self.total, left);
        add_units(remainders, least, left, shares);
    }
}
