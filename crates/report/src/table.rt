// The table of a sheet: a row for each used chain, ascending, with what the walk of the chain's statement holds, and the class total.
ghost use Rattle.std.specs.Prelude.{true, ◌≡◌, ◌+◌, ◌≤◌, ◌<◌, []};
ghost use Rattle.book.specs.ClassTotal.{class_total};
ghost use Rattle.book.specs.Statements.{reply_with};
ghost use Rattle.book_words.specs.Book.{elements};
ghost use Rattle.book_words.specs.Soundness.{sound};
ghost use Rattle.report.specs.Inner.Table.{RowsFit, rows_after};
ghost use Rattle.arrayvec.specs.ArrayVec.{array_vec_len};

use arrayvec::ArrayVec;
use book::{Held, Statement};
use book_words::{Element, MOST_CHAINS, SoundWords};

// A chain, and what the walk of its statement holds.
#[derive(Clone, Copy, Default)]
pub struct Row {
    pub chain: u64,
    pub held: Held,
}

// The rows of a table, and the class total. The rows are lent: as an ArrayVec, by value, a full sheet costs 4 % more, and the example
// 11 %.
#[derive(Clone, Copy)]
pub struct Table<'a> {
    pub rows: &'a [Row],
    pub total: Statement,
    // So that each row's total fits in 64 bits.
    ghost fit: { RowsFit rows.now },
}

// Makes the rows in one walk over the elements, and answers the class total.
pub fn collect<const N: usize>(book: &SoundWords, rows: &mut ArrayVec<Row, N>) -> Statement
    requires room { elements book.now ≤ N }
    requires empty { rows.old.items ≡ [] }
    ensures book { sound book.now ≡ true }
    ensures value { reply_with result ≡ class_total book.now }
    ensures table { rows.new.items ≡ rows_after book.now (elements book.now) }
{
    let mut total = book::NOTHING;
    for passed in 0..book.count::<Element>() {
        add_next(book, passed, rows);
        total = book::walk_on(book, 1, MOST_CHAINS, passed, total);
    }
    total.with_total()
}

// One element more: adds it in the row of its chain. A chain that is not met yet gets a row.
fn add_next<const N: usize>(book: &SoundWords, passed: u64, rows: &mut ArrayVec<Row, N>)
    requires passed { passed < elements book.now }
    requires room { array_vec_len rows.old < N }
    requires table { rows.old.items ≡ rows_after book.now passed }
    ensures { rows.new.items ≡ rows_after book.now (passed + 1) }
{
    let chain = book.record_at::<Element>(passed as usize).chain;
    match rows.binary_search_by_key(&chain, |row| row.chain) {
        Ok(at) => {
            rows[at].held = book::walk_on(book, chain, chain, passed, rows[at].held);
        }
        Err(at) => {
            let held = book::walk_on(book, chain, chain, passed, book::NOTHING);
            rows.insert(at, Row { chain, held });
        }
    }
}
