// Demand 3: "The emissions of a book are all handed out, and none twice." Document 01 has its terms, under "Lists and the tally".
// A call is given as a value here, so that lists of calls can be spoken of.
#![tactic(auto)]

ghost use Rattle.std.specs.Prelude.{◌≡◌, IfOk, is_some};
ghost use Rattle.conservation.specs.Runs.{appends, step, step_reply_in};

use apportion::Refusal;
use book::{EnrolArguments, LineArguments, PostArguments, QuoteArguments};

// A call of a list, with its arguments. A list starts from a fresh book; statement and intensity are lent the
// words to read only.
#[derive(Clone, Copy)]
pub enum Call {
    // Kind.
    Open(u64),
    Post(PostArguments),
    Line(LineArguments),
    // Entry.
    Strike(u64),
    Enrol(EnrolArguments),
    Quote(QuoteArguments),
    // Category.
    Close(u64),
}

// Makes the call on the book, and answers the number of the record that it appended. Strike and close append none.
pub fn perform(book: &mut [u64], call: Call) -> Result<Option<u64>, Refusal>
    ensures value { step_reply_in result ≡ (step book.old call).reply }
    ensures number { IfOk result (λ number. is_some number ≡ appends call) }
    ensures book_after { book.new ≡ (step book.old call).book }
{
    match call {
        Call::Open(kind) => book::open(book, kind).map(Some),
        Call::Post(p) => book::post(book, p).map(Some),
        Call::Line(l) => book::post_line(book, l).map(Some),
        Call::Strike(entry) => book::strike(book, entry).map(|()| None),
        Call::Enrol(e) => book::enrol(book, e).map(Some),
        Call::Quote(q) => book::quote(book, q).map(Some),
        Call::Close(category) => book::close(book, category).map(|()| None),
    }
}
