// What the edges of a scope cost, once the scopes that it calls are worked out.
ghost use Rattle.std.specs.Prelude.{◌≡◌, min, Some};
ghost use Rattle.model.specs.Runs.{nonneg, weight};
ghost use Rattle.model.specs.Ways.{value_from_lem, edge_value_lem};
ghost use Rattle.plain.specs.Copies.{scope_of};
ghost use Rattle.plain.specs.Values.{bound_at, heaviest, capped, KeptWeights};

use crate::plain_scope::PlainScope;
use model::cost::Cost;
use model::graph::{Edge, Node};
use rules::limits::SCOPES;
use search::values::EdgeValues;

// A number of cycles in 32 bits: not below 0, and cut off above.
fn cycles(sum: i64) -> u32
    ensures { result ≡ min (nonneg sum) heaviest }
{
    u32::try_from(sum.max(0)).unwrap_or(u32::MAX)
}

// The weight of an edge with this effect out of a node.
fn weight_of(node: Node, effect: i32) -> u32
    ensures { result ≡ min (weight node effect) heaviest }
{
    match node {
        Node::Block { time, .. } => cycles(i64::from(time) + i64::from(effect)),
        Node::Call { .. } => cycles(i64::from(effect)),
    }
}

// The values of the edges of a scope. The bounds of the scopes stand by their numbers in a lent table of costs, so
// that which of them are worked out stands beside them.
#[derive(Drop)]
pub struct ScopeValues<'a, C> {
    pub scope: &'a PlainScope,
    pub bounds: &'a [C],
    pub solved: &'a [bool; SCOPES],
}

impl<'a, C: Cost> ScopeValues<'a, C> {
    // The bound of a scope, where it is worked out.
    fn bound_of(&self, scope: u8) -> Option<C>
        ensures { result ≡ bound_at self.now.bounds.now self.now.solved.now scope }
    {
        let ScopeValues { bounds, solved, .. } = *self;
        let scope = usize::from(scope);
        if *solved.get(scope)? {
            bounds.get(scope).copied()
        } else {
            None
        }
    }

    // The value of an edge out of a node: of a call, the bound of the called scope and then the edge.
    fn value_from(&self, edge: Edge, node: Node) -> Option<C>
        ensures { result ≡ value_from_lem (capped C.measure) (bound_at self.now.bounds.now self.now.solved.now) edge (Some node) }
    {
        let weight = weight_of(node, edge.effect);
        match node {
            Node::Block { stack, .. } => Some(C::of(weight, stack)),
            Node::Call { scope } => Some(self.bound_of(scope)?.join(C::of(weight, 0))),
        }
    }
}

impl<'a, C: Cost> EdgeValues<C> for ScopeValues<'a, C> {
    ghost values = { λ v. edge_value_lem (capped C.measure) (bound_at v.bounds.now v.solved.now) (scope_of v.scope.now) };

    fn value(&self, edge: usize) -> Option<C> {
        let edge = self.scope.flow.edges.get(edge)?;
        let node = self.scope.node(usize::from(edge.from))?;
        self.value_from(edge, node)
    }
}

// In a graph that keeps the rules the weights are the sums of time and effect themselves, and fit 32 bits.
pub fn weights_stand()
    ensures { KeptWeights }
{}
