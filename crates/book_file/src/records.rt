// The records of a file, read from its bytes at a position.
ghost use Rattle.std.specs.Prelude.{◌≡◌, ◌<◌, ◌^◌, ℕ, List};
ghost use Rattle.std.proofs.Common.{rules, refl};
ghost use Rattle.book_file.specs.declared.records.CategoryRecord.{CategoryRecord};
ghost use Rattle.book_file.specs.declared.records.Closing.{Closing};
ghost use Rattle.book_file.specs.File.{section_in, category_record, entry_record, element_record};
ghost use Rattle.book_file.specs.Loading.{Table, Categories, Entries, Elements, Closings, section_of, quote_arguments, enrol_arguments};

use crate::numbers::{u32_at, u64_at};
use book::{EnrolArguments, PostArguments, QuoteArguments};

#[derive(Clone, Copy)]
pub struct CategoryRecord {
    pub kind: u64,
    pub flag: u64,
}

#[derive(Clone, Copy)]
pub struct ElementRecord {
    pub category: u64,
    pub chain: u64,
    pub code: u64,
    pub adjust: u64,
    pub amount: u64,
    pub distance: u64,
    // Intensities.
    pub operation: u64,
    pub provision: u64,
}

// The arguments of the quote that an element asks for, and those of its enrolment.
impl From<ElementRecord> for QuoteArguments {
    ghost from_gives = { λ r q. q ≡ quote_arguments r };

    fn from(r: ElementRecord) -> QuoteArguments {
        QuoteArguments {
            chain: r.chain,
            adjust: r.adjust,
            mass: r.amount,
            distance: r.distance,
            operation_intensity: r.operation,
            provision_intensity: r.provision,
        }
    }
}

impl From<ElementRecord> for EnrolArguments {
    ghost from_gives = { λ r e. e ≡ enrol_arguments r };

    fn from(r: ElementRecord) -> EnrolArguments {
        EnrolArguments {
            category: r.category,
            chain: r.chain,
            code: r.code,
            amount: r.amount,
            distance: r.distance,
            kg_per_head: r.adjust,
        }
    }
}

// A category, read again to be closed if it is flagged.
#[derive(Clone, Copy)]
pub struct Closing {
    pub category: CategoryRecord,
}

// A record of one of the tables.
pub trait FileRecord: Copy {
    ghost TABLE: { Table };

    ghost POSITION: { ℕ };

    ghost SIZE: { ℕ };

    ghost record_in: { List ℕ → ℕ → Self };

    // Which number of the header counts them; the next is where the first starts.
    const POSITION: usize;

    // The bytes of each.
    const SIZE: u8;

    // The record that starts at this byte: its layout, field by field.
    fn read(file: &[u8], at: usize) -> Self
        requires { at < 2 ^ 41 }
        ensures { result ≡ record_in file.now at };

    ghost in_header: { POSITION < 7 };

    ghost section: { (file : List ℕ) → section_of file TABLE ≡ section_in file POSITION SIZE };
}

impl FileRecord for CategoryRecord {
    ghost TABLE = { Categories };

    ghost POSITION = { 1 };

    ghost SIZE = { 8 };

    ghost record_in = { category_record };

    const POSITION: usize = 1;

    const SIZE: u8 = 8;

    fn read(file: &[u8], at: usize) -> CategoryRecord {
        CategoryRecord {
            kind: u32_at(file, at).into(),
            flag: u32_at(file, at + 4).into(),
        }
    }

    ghost in_header = { Prim.search rules };

    ghost section = { λ file. refl };
}

// The record of an entry has the arguments of its post.
impl FileRecord for PostArguments {
    ghost TABLE = { Entries };

    ghost POSITION = { 3 };

    ghost SIZE = { 32 };

    ghost record_in = { entry_record };

    const POSITION: usize = 3;

    const SIZE: u8 = 32;

    fn read(file: &[u8], at: usize) -> PostArguments {
        PostArguments {
            category: u32_at(file, at).into(),
            group: u32_at(file, at + 4).into(),
            quantity: u64_at(file, at + 8),
            operation_factor: u64_at(file, at + 16),
            provision_factor: u64_at(file, at + 24),
        }
    }

    ghost in_header = { Prim.search rules };

    ghost section = { λ file. refl };
}

impl FileRecord for ElementRecord {
    ghost TABLE = { Elements };

    ghost POSITION = { 5 };

    ghost SIZE = { 48 };

    ghost record_in = { element_record };

    const POSITION: usize = 5;

    const SIZE: u8 = 48;

    fn read(file: &[u8], at: usize) -> ElementRecord {
        ElementRecord {
            category: u32_at(file, at).into(),
            chain: u32_at(file, at + 4).into(),
            code: u32_at(file, at + 8).into(),
            adjust: u32_at(file, at + 12).into(),
            amount: u64_at(file, at + 16),
            distance: u64_at(file, at + 24),
            operation: u64_at(file, at + 32),
            provision: u64_at(file, at + 40),
        }
    }

    ghost in_header = { Prim.search rules };

    ghost section = { λ file. refl };
}

impl FileRecord for Closing {
    ghost TABLE = { Closings };

    ghost POSITION = { 1 };

    ghost SIZE = { 8 };

    ghost record_in = { λ file at. record { category = category_record file at } };

    const POSITION: usize = CategoryRecord::POSITION;

    const SIZE: u8 = CategoryRecord::SIZE;

    fn read(file: &[u8], at: usize) -> Closing {
        Closing {
            category: CategoryRecord::read(file, at),
        }
    }

    ghost in_header = { Prim.search rules };

    ghost section = { λ file. refl };
}
