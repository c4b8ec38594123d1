// What calls answer.
ghost use Rattle.std.specs.Prelude.{◌≡◌};
ghost use Rattle.book.specs.Statements.{statement_numbers, reply_with};

// What an accepted statement answers.
#[derive(Clone, Copy)]
pub struct Statement {
    // How many elements the chain has, and how many of them are in open categories.
    pub elements: u64,
    pub waiting: u64,
    // Their shares, in micrograms; the total is operation plus provision.
    pub operation: u64,
    pub provision: u64,
    pub total: u64,
}

// Its numbers, in the order in which they are printed.
impl From<Statement> for [u64; 5] {
    ghost from_gives = { λ s numbers. numbers ≡ statement_numbers (reply_with s) };

    fn from(s: Statement) -> [u64; 5] {
        [s.elements, s.waiting, s.operation, s.provision, s.total]
    }
}
