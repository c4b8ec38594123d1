// The pools of a category: A, B1 and B2.
ghost use Rattle.std.specs.Prelude.{◌≡◌};
ghost use Rattle.book_words.specs.Totals.{unstruck};
ghost use Rattle.book_shares.specs.Inner.Steps.{pools_with, pools_by, group_pool};

use crate::weights::Group;
use book_words::{Entry, Side, SoundWords};

// The three pools of a category, on one side.
#[derive(Clone, Copy, Default)]
pub struct Pools {
    // A.
    pub all: u64,
    // B1 and B2.
    pub chilled: u64,
    pub frozen: u64,
}

// What an entry adds to the pool of its group.
fn unstruck(side: Side, e: Entry) -> u64
    ensures { result ≡ unstruck side e }
{
    if e.is_struck() {
        return 0;
    }
    match side {
        Side::Operation => e.operation,
        Side::Provision => e.provision,
    }
}

// The pools with what an entry adds to them, where it is of the category.
fn pools_with(pools: Pools, category: u64, side: Side, e: Entry) -> Pools
    ensures { result ≡ pools_with pools category side e }
{
    if e.category != category {
        return pools;
    }
    let added = unstruck(side, e);
    match e.group {
        0 => Pools {
            all: book_words::add(pools.all, added),
            ..pools
        },
        1 => Pools {
            chilled: book_words::add(pools.chilled, added),
            ..pools
        },
        2 => Pools {
            frozen: book_words::add(pools.frozen, added),
            ..pools
        },
        _ => pools,
    }
}

// One side, and then the other, as the definitions have it. The unstruck entries of the category: A of group 0, B1 and B2 of groups 1 and 2.
pub fn pools_of(book: &SoundWords, category: u64, side: Side) -> Pools
    ensures { result ≡ pools_by book.now category side }
{
    let count = book.count::<Entry>();
    let mut pools = Pools::default();
    for passed in 0..count {
        let e: Entry = book.record_at(passed as usize);
        pools = pools_with(pools, category, side, e);
    }
    pools
}

// The pool of a group.
pub fn group_pool(pools: Pools, group: Group) -> u64
    ensures { result ≡ group_pool pools group }
{
    match group {
        Group::Chilled => pools.chilled,
        Group::Frozen => pools.frozen,
    }
}
