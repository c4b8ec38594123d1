// The units left over, one each to the largest remainders, equal remainders to the earlier place.
ghost use Rattle.std.specs.Prelude.{◌≡◌, ℕ, ◌≤◌, ◌<◌, length};
ghost use Rattle.apportion.specs.Places.{at};
ghost use Rattle.apportion.specs.Dividing.{most_pool, most_total};
ghost use Rattle.apportion.specs.Inner.Units.{count_at_least, Bound, unit_by, with_units};

// How many remainders are at least the bound. By `filter` and `count` a division costs 5 to 34 % more.
fn count_at_least(remainders: &[u64], bound: u64) -> u64
    ensures { result ≡ count_at_least remainders.now bound }
{
    remainders
        .iter()
        .map(|&remainder| u64::from(remainder >= bound))
        .sum()
}

// A bound by which the units left over are handed out, found by halving the range 0 to total.
pub fn unit_bound(remainders: &[u64], total: u64, left: u64) -> u64
    requires { (0 < total) × (count_at_least remainders.now total ≤ left) × (left ≤ count_at_least remainders.now 0) }
    ensures bound { Bound remainders.now left result }
    ensures upper_bound { result < total }
{
    let mut low = 0;
    let mut high = total;
    // The halving counts nothing up, so it stays a `while`.
    while high - low > 1 {
        let middle = low + (high - low) / 2;
        let count = count_at_least(remainders, middle);
        if count == left {
            return middle;
        }
        if count > left {
            low = middle;
        } else {
            high = middle;
        }
    }
    low
}

// A rule of the dividing, and no conversion: the unit of a place with this remainder, when `equal` units are left for the places at the bound and
// `earlier` of these come first.
fn unit_by(remainder: u64, least: u64, earlier: u64, equal: u64) -> u64
    ensures value { result ≡ unit_by remainder least earlier equal }
    ensures upper_bound { result ≤ 1 }
{
    u64::from(remainder > least) + u64::from(remainder == least && earlier < equal)
}

// Adds one unit to the share of each place above the bound, and of those at the bound to the earlier.
pub fn add_units(remainders: &[u64], least: u64, left: u64, shares: &mut [u64])
    requires bound { Bound remainders.now left least }
    requires least_lt_most_total { least < most_total }
    requires shares_len { length shares.old ≡ length remainders.now }
    requires by_index { (k : ℕ) → at shares.old k ≤ most_pool }
    ensures { shares.new ≡ with_units remainders.now left shares.old }
{
    let equal = left - count_at_least(remainders, least + 1);
    let mut earlier = 0;
    // By index: of a zip over iter_mut the library does not say what was written.
    for (k, &remainder) in remainders.iter().enumerate() {
        shares[k] += unit_by(remainder, least, earlier, equal);
        earlier += u64::from(remainder == least);
    }
}
