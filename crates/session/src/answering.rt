// One call on a workbook.
ghost use Rattle.workbook.specs.Books.{book_graph};
ghost use Rattle.session.specs.Sequences.{Answers};

use crate::call::{Answer, Call, Reply};
use analysis::analyze::analyze;
use model::cost::Cost;
use model::trail::Line;
use workbook::book::Workbook;

pub fn answer_to<C: Cost>(
    book: &mut Workbook,
    call: Call,
    work: &mut [C],
    trail: &mut [Line],
) -> Answer<C>
    ensures { Answers C.measure call result (book_graph book.old) work.old trail.old (book_graph book.new) work.new trail.new }
{
    match call {
        Call::Edit(edit) => Ok(Reply::from(book.edit(edit)?)),
        Call::WorkOut => Ok(Reply::Bound(analyze(&*book, work, trail)?)),
    }
}
