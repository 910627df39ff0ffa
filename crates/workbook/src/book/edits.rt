// Any call that changes a workbook.
ghost use Rattle.workbook.specs.Books.{book_graph};
ghost use Rattle.workbook.specs.Calls.{Described, OneAnswer};

use crate::book::Workbook;
use crate::edit::Edit;
use model::refusal::Refusal;

impl Workbook {
    // The number given, if the call gives one, or why it is refused.
    pub fn edit(&mut self, edit: Edit) -> Result<Option<usize>, Refusal>
        ensures { Described (book_graph self.old) edit result (book_graph self.new) }
    {
        match edit {
            Edit::AddScope { least, most } => self.add_scope(least, most).map(Some),
            Edit::AddBlock { scope, time, stack } => self.add_block(scope, time, stack).map(Some),
            Edit::AddCall { scope, callee } => self.add_call(scope, callee).map(Some),
            Edit::AddEdge { scope, edge } => self.add_edge(scope, edge).map(Some),
            Edit::AddFact { scope, fact } => self.add_fact(scope, fact).map(Some),
            Edit::SetPasses { scope, least, most } => {
                self.set_passes(scope, least, most).map(|()| None)
            }
            Edit::SetFigures {
                scope,
                node,
                time,
                stack,
            } => { self.set_figures(scope, node, time, stack).map(|()| None) }
            Edit::Strike { scope } => self.strike(scope).map(|()| None),
        }
    }
}

// Each call is described to have one answer and to lead to one graph.
pub fn one_answer()
    ensures { OneAnswer }
{}
