// A step of a workbook is tried: it stays where the changed graph keeps the rules, else it is undone.
ghost use Rattle.std.specs.Prelude.{IfSome};
ghost use Rattle.workbook.specs.Books.{book_graph};
ghost use Rattle.workbook.specs.Steps.{stepped, Reversible};
ghost use Rattle.workbook.specs.Tries.{Added, Tried};

use crate::book::Workbook;
use crate::change::Step;
use model::refusal::Refusal;
use rules::judge::first_broken;

impl Workbook {
    pub(crate) fn try_step(&mut self, step: Step) -> Result<(), Refusal>
        requires { Reversible step (book_graph self.old) }
        ensures { Tried (book_graph self.old) (stepped step (book_graph self.old)) result (book_graph self.new) }
    {
        let inverse = self.tables.inverse(step);
        self.tables.apply(step);
        if let Some(refusal) = first_broken(&self.tables) {
            self.tables.apply(inverse);
            return Err(refusal);
        }
        Ok(())
    }

    // An addition. Its number is the count of the list that it goes to, none where there is no such list.
    pub(crate) fn add(&mut self, count: Option<usize>, step: Step) -> Result<usize, Refusal>
        requires { IfSome count (λ _. Reversible step (book_graph self.old)) }
        ensures { Added (book_graph self.old) (stepped step (book_graph self.old)) count result (book_graph self.new) }
    {
        let number = count.ok_or(Refusal::Missing)?;
        self.try_step(step).map(|()| number)
    }
}
