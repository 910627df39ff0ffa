// What tables answer of the graph that they mean.
ghost use Rattle.workbook.specs.Tables.{graph_of};

use crate::sheet::Sheet;
use crate::tables::Tables;
use model::graph::{Edge, Fact, Node};
use model::scope_graph::ScopeGraph;

impl ScopeGraph for Tables {
    ghost graph = { graph_of };

    fn scopes(&self) -> usize {
        self.scopes.len()
    }

    fn passes(&self, scope: usize) -> Option<(u16, u16)> {
        self.scopes.get(scope).map(Sheet::passes)
    }

    fn nodes(&self, scope: usize) -> Option<usize> {
        self.scopes.get(scope).map(Sheet::node_count)
    }

    fn edges(&self, scope: usize) -> Option<usize> {
        self.scopes.get(scope).map(Sheet::edge_count)
    }

    fn facts(&self, scope: usize) -> Option<usize> {
        self.scopes.get(scope).map(Sheet::fact_count)
    }

    fn node(&self, scope: usize, n: usize) -> Option<Node> {
        self.scopes.get(scope)?.node(n)
    }

    fn edge(&self, scope: usize, n: usize) -> Option<Edge> {
        self.scopes.get(scope)?.edge(n)
    }

    fn fact(&self, scope: usize, n: usize) -> Option<Fact> {
        self.scopes.get(scope)?.fact(n)
    }
}
