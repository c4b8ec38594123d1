// The layout of a book, and its records, each read from its words and written as them.
ghost use Rattle.std.specs.Prelude.{◌≡◌, ◌≤◌, ◌<◌, ◌+◌, ◌-◌, ℕ, List, length, set, not, eqb};
ghost use Rattle.std.proofs.Common.{rules, refl};
ghost use Rattle.book_words.specs.Book.{book_length, count_of, start_of, category_list, most_categories, category_at, category_words, has_closed};
ghost use Rattle.book_words.specs.Book.{entry_list, most_entries, entry_at, entry_words, element_list, most_elements, element_at, element_words};
ghost use Rattle.book_words.specs.Inner.Steps.{CountsWithin};
ghost use Rattle.book_words.specs.declared.records.Layout.{Layout};

// The words of a book.
pub const BOOK_LENGTH: usize = 2660;

// Word 0 of a book.
pub const MARK: u64 = 14083;

// Where the counts stand.
pub const CATEGORIES: usize = 1;

pub const ENTRIES: usize = 2;

pub const ELEMENTS: usize = 3;

// Where a list is.
#[derive(Clone, Copy)]
pub struct Layout {
    // The word that counts its records.
    pub counter: usize,
    // Its first word.
    pub first: usize,
    // The words of a record.
    pub width: usize,
}

// The words that have a name, each counted from the start of its record.
pub const CLOSED_WORD: usize = 1;

pub const STRUCK_WORD: usize = 4;

pub const CHAIN_WORD: usize = 1;

pub const OPERATION_SHARE_WORD: usize = 6;

pub const PROVISION_SHARE_WORD: usize = 7;

// Kinds, groups, codes and marks are numbers and no enums: the words of a book may be any, and the test of soundness judges them. Behind
// it marks, freight and hubs are asked by their words, as `has_closed` and `is_freight`.
#[derive(Clone, Copy)]
pub struct Category {
    // 1 freight, 2 passengers, 3 both, 4 freight hub.
    pub kind: u64,
    pub closed: u64,
}

#[derive(Clone, Copy)]
pub struct Entry {
    pub category: u64,
    // 0 benefits all, 1 chilled, 2 frozen.
    pub group: u64,
    pub operation: u64,
    pub provision: u64,
    pub struck: u64,
}

#[derive(Clone, Copy)]
pub struct Element {
    // 0 when quoted.
    pub category: u64,
    pub chain: u64,
    pub code: u64,
    pub amount: u64,
    pub distance: u64,
    pub activity: u64,
    pub operation: u64,
    pub provision: u64,
    // 0 where the passengers are not weighed, and for freight and quotes.
    pub kg_per_head: u64,
}

impl Category {
    pub fn has_closed(self) -> bool
        ensures { result ≡ has_closed self }
    {
        self.closed != 0
    }
}

impl Entry {
    pub fn is_struck(self) -> bool
        ensures { result ≡ not (eqb self.struck 0) }
    {
        self.struck != 0
    }
}

// A record of one of the lists.
pub trait Record: Copy {
    ghost LIST: { Layout };

    ghost MOST: { ℕ };

    ghost record_at: { List ℕ → ℕ → Self };

    ghost words_of: { Self → List ℕ };

    // Where its list is, and the most records of it.
    const LIST: Layout;

    const MOST: u64;

    // The record at this place: its layout, field by field.
    fn read(book: &[u64], place: usize) -> Self
        requires { start_of LIST place + LIST.width ≤ length book.now }
        ensures { result ≡ record_at book.now place };

    // Writes the words of the record.
    fn write(self, words: &mut [u64])
        requires { length words.old ≡ LIST.width }
        ensures { words.new ≡ words_of self };

    // Its list is counted within the most records, and they are within the book.
    ghost counted: { (ws : List ℕ) → CountsWithin ws → count_of ws LIST ≤ MOST };

    ghost inside: { (LIST.counter < LIST.first) × (start_of LIST MOST ≤ book_length) × (MOST ≤ most_elements) };

    ghost width: { (r : Self) → length (words_of r) ≡ LIST.width };
}

impl Record for Category {
    ghost LIST = { category_list };

    ghost MOST = { most_categories };

    ghost record_at = { category_at };

    ghost words_of = { category_words };

    const LIST: Layout = Layout {
        counter: CATEGORIES,
        first: 4,
        width: 2,
    };

    const MOST: u64 = 16;

    fn read(book: &[u64], place: usize) -> Category {
        let at = Self::LIST.first + Self::LIST.width * place;
        Category {
            kind: book[at],
            closed: book[at + CLOSED_WORD],
        }
    }

    fn write(self, words: &mut [u64]) {
        words.copy_from_slice(&[self.kind, self.closed]);
    }

    ghost counted = { λ ws counts. counts.categories_most };

    ghost inside = { Prim.search rules };

    ghost width = { λ r. refl };
}

impl Record for Entry {
    ghost LIST = { entry_list };

    ghost MOST = { most_entries };

    ghost record_at = { entry_at };

    ghost words_of = { entry_words };

    const LIST: Layout = Layout {
        counter: ENTRIES,
        first: 36,
        width: 5,
    };

    const MOST: u64 = 64;

    fn read(book: &[u64], place: usize) -> Entry {
        let at = Self::LIST.first + Self::LIST.width * place;
        Entry {
            category: book[at],
            group: book[at + 1],
            operation: book[at + 2],
            provision: book[at + 3],
            struck: book[at + STRUCK_WORD],
        }
    }

    fn write(self, words: &mut [u64]) {
        words.copy_from_slice(&[
            self.category,
            self.group,
            self.operation,
            self.provision,
            self.struck,
        ]);
    }

    ghost counted = { λ ws counts. counts.entries_most };

    ghost inside = { Prim.search rules };

    ghost width = { λ r. refl };
}

impl Record for Element {
    ghost LIST = { element_list };

    ghost MOST = { most_elements };

    ghost record_at = { element_at };

    ghost words_of = { element_words };

    const LIST: Layout = Layout {
        counter: ELEMENTS,
        first: 356,
        width: 9,
    };

    const MOST: u64 = 256;

    fn read(book: &[u64], place: usize) -> Element {
        let at = Self::LIST.first + Self::LIST.width * place;
        Element {
            category: book[at],
            chain: book[at + CHAIN_WORD],
            code: book[at + 2],
            amount: book[at + 3],
            distance: book[at + 4],
            activity: book[at + 5],
            operation: book[at + OPERATION_SHARE_WORD],
            provision: book[at + PROVISION_SHARE_WORD],
            kg_per_head: book[at + 8],
        }
    }

    fn write(self, words: &mut [u64]) {
        words.copy_from_slice(&[
            self.category,
            self.chain,
            self.code,
            self.amount,
            self.distance,
            self.activity,
            self.operation,
            self.provision,
            self.kg_per_head,
        ]);
    }

    ghost counted = { λ ws counts. counts.elements_most };

    ghost inside = { Prim.search rules };

    ghost width = { λ r. refl };
}

// Sets a word of the record of this number; the word is counted from the record's start.
pub fn set_word<R: Record>(book: &mut [u64], number: u64, word: usize, value: u64)
    requires long { book_length ≤ length book.old }
    requires number { (1 ≤ number) × (number ≤ R.MOST) }
    requires word { word < R.LIST.width }
    ensures { book.new ≡ set book.old (start_of R.LIST (number - 1) + word) value }
{
    let list = R::LIST;
    let place = number as usize - 1;
    book[list.first + list.width * place + word] = value;
}
