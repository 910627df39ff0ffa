// The calls on a workbook.
ghost use Rattle.std.specs.Prelude.{◌≡◌, [], IfOk, if◌then◌else◌, nat_lt};
ghost use Rattle.model.specs.declared.refusal.Refusal.TheVariants.{BadFigure};
ghost use Rattle.workbook.specs.declared.edit.Edit.TheVariants.{AddScope, AddBlock, AddCall, AddEdge, AddFact, SetPasses, SetFigures, Strike};
ghost use Rattle.workbook.specs.Books.{book_graph};
ghost use Rattle.workbook.specs.Calls.{Described, numbered, unnumbered};

use crate::book::Workbook;
use crate::change::{Change, Step};
use crate::tables::Tables;
use model::graph::{Edge, Fact, Node};
use model::refusal::Refusal;
use model::scope_graph::ScopeGraph;
use rules::limits::LONGEST;
use std::alloc::{AllocError, Global};

// Why figures are refused for what is no block.
fn no_block(time: u32, otherwise: Refusal) -> Refusal
    ensures { result ≡ (if nat_lt 1000000 time then BadFigure else otherwise) }
{
    if time > LONGEST {
        Refusal::BadFigure
    } else {
        otherwise
    }
}

impl Workbook {
    // A workbook without scopes. All the memory that it will ever need is taken here.
    pub fn new(heap: Global) -> Result<Workbook, AllocError>
        ensures { IfOk result (λ w. book_graph w ≡ []) }
    {
        let tables = Tables::new(heap)?;
        Ok(Workbook { tables })
    }

    pub fn add_scope(&mut self, least: u16, most: u16) -> Result<usize, Refusal>
        ensures { Described (book_graph self.old) (AddScope least most) (numbered result) (book_graph self.new) }
    {
        let count = self.tables.scopes();
        self.add(Some(count), Step::Open(least, most))
    }

    pub fn add_block(&mut self, scope: usize, time: u32, stack: u16) -> Result<usize, Refusal>
        ensures { Described (book_graph self.old) (AddBlock scope time stack) (numbered result) (book_graph self.new) }
    {
        let count = self.tables.nodes(scope);
        let change = Change::PushNode(Node::Block { time, stack });
        self.add(count, Step::In(scope, change))
    }

    pub fn add_call(&mut self, scope: usize, callee: u8) -> Result<usize, Refusal>
        ensures { Described (book_graph self.old) (AddCall scope callee) (numbered result) (book_graph self.new) }
    {
        let count = self.tables.nodes(scope);
        let change = Change::PushNode(Node::Call { scope: callee });
        self.add(count, Step::In(scope, change))
    }

    pub fn add_edge(&mut self, scope: usize, edge: Edge) -> Result<usize, Refusal>
        ensures { Described (book_graph self.old) (AddEdge scope edge) (numbered result) (book_graph self.new) }
    {
        let count = self.tables.edges(scope);
        self.add(count, Step::In(scope, Change::PushEdge(edge)))
    }

    pub fn add_fact(&mut self, scope: usize, fact: Fact) -> Result<usize, Refusal>
        ensures { Described (book_graph self.old) (AddFact scope fact) (numbered result) (book_graph self.new) }
    {
        let count = self.tables.facts(scope);
        self.add(count, Step::In(scope, Change::PushFact(fact)))
    }

    pub fn set_passes(&mut self, scope: usize, least: u16, most: u16) -> Result<(), Refusal>
        ensures { Described (book_graph self.old) (SetPasses scope least most) (unnumbered result) (book_graph self.new) }
    {
        if scope >= self.tables.scopes() {
            return Err(Refusal::Missing);
        }
        self.try_step(Step::In(scope, Change::Passes(least, most)))
    }

    // New figures for one block.
    pub fn set_figures(
        &mut self,
        scope: usize,
        node: usize,
        time: u32,
        stack: u16,
    ) -> Result<(), Refusal>
        ensures { Described (book_graph self.old) (SetFigures scope node time stack) (unnumbered result) (book_graph self.new) }
    {
        if scope >= self.tables.scopes() {
            return Err(Refusal::Missing);
        }
        match self.tables.node(scope, node) {
            Some(Node::Block { .. }) => {
                self.try_step(Step::In(scope, Change::Figures(node, time, stack)))
            }
            Some(Node::Call { .. }) => Err(no_block(time, Refusal::NotABlock)),
            None => Err(no_block(time, Refusal::Missing)),
        }
    }

    // Takes the newest fact of a scope away.
    pub fn strike(&mut self, scope: usize) -> Result<(), Refusal>
        ensures { Described (book_graph self.old) (Strike scope) (unnumbered result) (book_graph self.new) }
    {
        match self.tables.facts(scope) {
            None => Err(Refusal::Missing),
            Some(0) => Err(Refusal::NoFact),
            Some(_) => self.try_step(Step::In(scope, Change::PopFact)),
        }
    }
}
