// What an image answers of the graph that it means.
ghost use Rattle.image.specs.Meaning.{meant};

use crate::image::Image;
use crate::part::Scopes;
use model::graph::{Edge, Fact, Node};
use model::lists::{Edges, Facts, Nodes};
use model::scope_graph::ScopeGraph;

impl<'a> ScopeGraph for Image<'a> {
    ghost graph = { λ i. meant i.bytes.now };

    fn scopes(&self) -> usize {
        // the list of the scopes belongs to no scope, so it is always there
        self.count(&Scopes).unwrap_or(0)
    }

    fn passes(&self, scope: usize) -> Option<(u16, u16)> {
        self.seek(&Scopes, scope)
    }

    fn nodes(&self, scope: usize) -> Option<usize> {
        self.count(&Nodes(scope))
    }

    fn edges(&self, scope: usize) -> Option<usize> {
        self.count(&Edges(scope))
    }

    fn facts(&self, scope: usize) -> Option<usize> {
        self.count(&Facts(scope))
    }

    fn node(&self, scope: usize, n: usize) -> Option<Node> {
        self.seek(&Nodes(scope), n)
    }

    fn edge(&self, scope: usize, n: usize) -> Option<Edge> {
        self.seek(&Edges(scope), n)
    }

    fn fact(&self, scope: usize, n: usize) -> Option<Fact> {
        self.seek(&Facts(scope), n)
    }
}
