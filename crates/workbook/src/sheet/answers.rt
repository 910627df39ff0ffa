// What a sheet holds: a question for each of its lists, as a graph has them, so one for all would be no plainer.
ghost use Rattle.std.specs.Prelude.{◌≡◌, length};
ghost use Rattle.std.specs.List.{slice_get};
ghost use Rattle.workbook.specs.Sheets.{scope_of};
ghost use Rattle.workbook.specs.Steps.{inverse_of};

use crate::change::Change;
use crate::sheet::Sheet;
use model::graph::{Edge, Fact, Node};

impl Sheet {
    pub fn passes(&self) -> (u16, u16)
        ensures { result ≡ ((scope_of self.now).least, (scope_of self.now).most) }
    {
        (self.least, self.most)
    }

    pub fn node_count(&self) -> usize
        ensures { result ≡ length (scope_of self.now).nodes }
    {
        self.nodes.len()
    }

    pub fn edge_count(&self) -> usize
        ensures { result ≡ length (scope_of self.now).edges }
    {
        self.edges.len()
    }

    pub fn fact_count(&self) -> usize
        ensures { result ≡ length (scope_of self.now).facts }
    {
        self.facts.len()
    }

    pub fn node(&self, n: usize) -> Option<Node>
        ensures { result ≡ slice_get (scope_of self.now).nodes n }
    {
        self.nodes.get(n).copied()
    }

    pub fn edge(&self, n: usize) -> Option<Edge>
        ensures { result ≡ slice_get (scope_of self.now).edges n }
    {
        self.edges.get(n).copied()
    }

    pub fn fact(&self, n: usize) -> Option<Fact>
        ensures { result ≡ slice_get (scope_of self.now).facts n }
    {
        self.facts.get(n).copied()
    }

    // The change that undoes another, but for those that only undo.
    pub fn inverse(&self, change: Change) -> Change
        ensures { result ≡ inverse_of change (scope_of self.now) }
    {
        match change {
            Change::PushNode(_) => Change::PopNode,
            Change::PushEdge(_) => Change::PopEdge,
            Change::PushFact(_) => Change::PopFact,
            Change::Passes(_, _) => Change::Passes(self.least, self.most),
            Change::Figures(n, _, _) => match self.node(n) {
                Some(Node::Block { time, stack }) => Change::Figures(n, time, stack),
                Some(Node::Call { .. }) => change,
                None => change,
            },
            Change::PopFact => match self.facts.last() {
                Some(fact) => Change::PushFact(*fact),
                None => change,
            },
            Change::PopNode | Change::PopEdge => change,
        }
    }
}
