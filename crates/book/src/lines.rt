// Line: a line of a workbook is posted.
ghost use Rattle.std.specs.Prelude.{◌≡◌};
ghost use Rattle.book.specs.Lines.{line_reply, line_book};
ghost use Rattle.book.specs.Replies.{reply_in};

use crate::arguments::{LineArguments, PostArguments};
use crate::posting;
use apportion::Refusal;

// Posts the converted cells of a line to a category and group, and answers the entry's number. Its cells are judged before the book.
pub fn post_line(book: &mut [u64], l: LineArguments) -> Result<u64, Refusal>
    ensures value { reply_in result ≡ line_reply book.old l }
    ensures book_after { book.new ≡ line_book book.old l }
{
    let converted = workbook::convert(l.line)?;
    // Field by field: a `From` would take a tuple of category, group and line, in which the first two have no names, and is no plainer.
    let p = PostArguments {
        category: l.category,
        group: l.group,
        quantity: converted.quantity,
        operation_factor: converted.operation_factor,
        provision_factor: converted.provision_factor,
    };
    posting::post(book, p)
}
