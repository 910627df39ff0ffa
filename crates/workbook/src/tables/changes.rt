// Tables that are made and changed.
ghost use Rattle.std.specs.Prelude.{◌≡◌, ◌<◌, [], length, IfOk};
ghost use Rattle.std.specs.List.{slice_get};
ghost use Rattle.workbook.specs.declared.change.Step.TheVariants.{Open, Close, In};
ghost use Rattle.workbook.specs.Steps.{RoomAt, stepped, Fits, step_back};
ghost use Rattle.workbook.specs.Tables.{graph_of};

use crate::change::{Change, Step};
use crate::sheet::Sheet;
use crate::tables::Tables;
use rules::limits::SCOPES;
use std::alloc::{AllocError, Global};

// As many scopes as a graph may have, and one more.
const SHEETS: usize = SCOPES + 1;

impl Tables {
    pub fn new(heap: Global) -> Result<Tables, AllocError>
        ensures { IfOk result (λ t. graph_of t ≡ []) }
    {
        let scopes = Vec::with_capacity(heap, SHEETS)?;
        let mut spare = Vec::with_capacity(heap, SHEETS)?;
        for _ in 0..SHEETS {
            spare.push_reserved(Sheet::new(heap)?);
        }
        Ok(Tables { scopes, spare })
    }

    // A new scope at the end.
    fn open(&mut self, least: u16, most: u16)
        requires { length (graph_of self.old) < 17 }
        ensures { graph_of self.new ≡ stepped (Open least most) (graph_of self.old) }
    {
        let mut sheet = self.spare.take_last();
        sheet.open(least, most);
        self.scopes.push_reserved(sheet);
    }

    // The newest scope taken away.
    fn close(&mut self)
        requires { 0 < length (graph_of self.old) }
        ensures { graph_of self.new ≡ stepped Close (graph_of self.old) }
    {
        let sheet = self.scopes.take_last();
        self.spare.push_reserved(sheet);
    }

    // One scope changed, where it is there.
    fn change(&mut self, scope: usize, change: Change)
        requires { RoomAt change (slice_get (graph_of self.old) scope) }
        ensures { graph_of self.new ≡ stepped (In scope change) (graph_of self.old) }
    {
        if let Some(sheet) = self.scopes.get_mut(scope) {
            sheet.apply(change);
        }
    }

    pub fn apply(&mut self, step: Step)
        requires { Fits step (graph_of self.old) }
        ensures { graph_of self.new ≡ stepped step (graph_of self.old) }
    {
        match step {
            Step::Open(least, most) => self.open(least, most),
            Step::Close => self.close(),
            Step::In(scope, change) => self.change(scope, change),
        }
    }

    // The step that undoes another.
    pub fn inverse(&self, step: Step) -> Step
        ensures { result ≡ step_back step (graph_of self.now) }
    {
        match step {
            Step::Open(_, _) | Step::Close => Step::Close,
            Step::In(scope, change) => match self.scopes.get(scope) {
                Some(sheet) => Step::In(scope, sheet.inverse(change)),
                None => step,
            },
        }
    }
}
