// What a workbook answers of the graph that it means. Its tables may break the rules, so it hands each question on.
ghost use Rattle.workbook.specs.Books.{book_graph};

use crate::book::Workbook;
use model::graph::{Edge, Fact, Node};
use model::scope_graph::ScopeGraph;

impl ScopeGraph for Workbook {
    ghost graph = { book_graph };

    fn scopes(&self) -> usize {
        self.tables.scopes()
    }

    fn passes(&self, scope: usize) -> Option<(u16, u16)> {
        self.tables.passes(scope)
    }

    fn nodes(&self, scope: usize) -> Option<usize> {
        self.tables.nodes(scope)
    }

    fn edges(&self, scope: usize) -> Option<usize> {
        self.tables.edges(scope)
    }

    fn facts(&self, scope: usize) -> Option<usize> {
        self.tables.facts(scope)
    }

    fn node(&self, scope: usize, n: usize) -> Option<Node> {
        self.tables.node(scope, n)
    }

    fn edge(&self, scope: usize, n: usize) -> Option<Edge> {
        self.tables.edge(scope, n)
    }

    fn fact(&self, scope: usize, n: usize) -> Option<Fact> {
        self.tables.fact(scope, n)
    }
}
