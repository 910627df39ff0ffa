// What is asked of a plain scope.
ghost use Rattle.std.specs.Prelude.{◌≡◌};
ghost use Rattle.std.specs.List.{slice_get};
ghost use Rattle.model.specs.Trail.{called};
ghost use Rattle.plain.specs.Copies.{scope_of};
ghost use Rattle.plain.specs.Values.{shown_call};

use crate::plain_scope::PlainScope;
use model::graph::Node;

impl PlainScope {
    // Node number i.
    pub fn node(&self, i: usize) -> Option<Node>
        ensures { result ≡ slice_get (scope_of self.now).nodes i }
    {
        self.nodes.get(i)
    }

    // The scope that is called where this edge starts, if it starts at a call.
    pub fn called(&self, edge: u8) -> Option<u8>
        ensures { shown_call result ≡ called (scope_of self.now) (slice_get (scope_of self.now).edges edge) }
    {
        let edge = self.flow.edges.get(usize::from(edge))?;
        match self.node(usize::from(edge.from))? {
            Node::Call { scope } => Some(scope),
            Node::Block { .. } => None,
        }
    }
}
