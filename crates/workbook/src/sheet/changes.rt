// A sheet that is made, opened anew, or changed.
ghost use Rattle.std.specs.Prelude.{◌≡◌, IfOk};
ghost use Rattle.model.specs.Changes.{empty_scope, with_figures};
ghost use Rattle.workbook.specs.Sheets.{scope_of};
ghost use Rattle.workbook.specs.Steps.{apply_to, Room, inverse_of};

use crate::change::Change;
use crate::sheet::Sheet;
use model::graph::Node;
use rules::limits::{EDGES, FACTS, NODES};
use std::alloc::{AllocError, Global};

impl Sheet {
    pub fn new(heap: Global) -> Result<Sheet, AllocError>
        ensures { IfOk result (λ s. scope_of s ≡ empty_scope 0 0) }
    {
        let nodes = Vec::with_capacity(heap, NODES + 1)?;
        let edges = Vec::with_capacity(heap, EDGES + 1)?;
        let facts = Vec::with_capacity(heap, FACTS + 1)?;
        Ok(Sheet {
            least: 0,
            most: 0,
            nodes,
            edges,
            facts,
        })
    }

    // An empty scope of these passes, in the place of what was here.
    pub fn open(&mut self, least: u16, most: u16)
        ensures { scope_of self.new ≡ empty_scope least most }
    {
        self.least = least;
        self.most = most;
        self.nodes.clear();
        self.edges.clear();
        self.facts.clear();
    }

    // Other figures for a block; a call keeps what it is.
    fn set_figures(&mut self, n: usize, time: u32, stack: u16)
        ensures { scope_of self.new ≡ with_figures n time stack (scope_of self.old) }
    {
        match self.node(n) {
            Some(Node::Block { .. }) => self.nodes[n] = Node::Block { time, stack },
            Some(Node::Call { .. }) => {}
            None => {}
        }
    }

    pub fn apply(&mut self, change: Change)
        requires { Room change (scope_of self.old) }
        ensures { scope_of self.new ≡ apply_to change (scope_of self.old) }
    {
        match change {
            Change::PushNode(node) => self.nodes.push_reserved(node),
            Change::PopNode => {
                self.nodes.pop();
            }
            Change::PushEdge(edge) => self.edges.push_reserved(edge),
            Change::PopEdge => {
                self.edges.pop();
            }
            Change::PushFact(fact) => self.facts.push_reserved(fact),
            Change::PopFact => {
                self.facts.pop();
            }
            Change::Passes(least, most) => {
                self.least = least;
                self.most = most;
            }
            Change::Figures(n, time, stack) => self.set_figures(n, time, stack),
        }
    }
}
