// All scopes worked out.
ghost use Rattle.std.specs.Prelude.{◌≡◌, ◌*◌, ◌≤◌, length, drop, replicate};
ghost use Rattle.model.specs.Rules.{KeepsFrom};
ghost use Rattle.model.specs.Trail.{size};
ghost use Rattle.rules.specs.CallOrders.{CalledFirst};
ghost use Rattle.analysis.specs.States.{AreSettled};

use crate::settle::settle;
use model::cost::Cost;
use model::scope_graph::ScopeGraph;
use model::trail::Line;
use rules::limits::SCOPES;

// No bound is known: each place is as for a scope that has no run.
fn clear<C: Cost>(bounds: &mut [C])
    ensures { bounds.new ≡ replicate (length bounds.old) C.measure.nothing }
{
    for bound in bounds.iter_mut() {
        *bound = C::nothing();
    }
}

// Every scope of the order, worked out and written down; says which of them have a run.
pub fn settle_all<C: Cost, G: ScopeGraph>(
    graph: &G,
    order: &[u8; SCOPES],
    bounds: &mut [C],
    table: &mut [C],
    trail: &mut [Line],
) -> [bool; SCOPES]
    requires keeps { KeepsFrom 22 (G.ScopeGraph.graph graph.now) }
    requires ordered { CalledFirst (G.ScopeGraph.graph graph.now) order.now }
    requires places { length bounds.old ≡ 16 }
    requires room { 32 ≤ length table.old }
    requires lines { size * length (G.ScopeGraph.graph graph.now) ≤ length trail.old }
    ensures settled { AreSettled C.measure (G.ScopeGraph.graph graph.now) bounds.new trail.new result order.now (length (G.ScopeGraph.graph graph.now)) }
    ensures rest { drop (size * length (G.ScopeGraph.graph graph.now)) trail.new ≡ drop (size * length (G.ScopeGraph.graph graph.now)) trail.old }
{
    clear(bounds);
    let mut solved = [false; SCOPES];
    // by place: what is known of the scopes so far is said by places of the order
    for place in 0..graph.scopes() {
        settle(graph, order, place, bounds, &mut solved, table, trail);
    }
    solved
}
