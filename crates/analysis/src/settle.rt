// One scope after the other, called scopes first.
ghost use Rattle.std.specs.Prelude.{◌≡◌, ◌+◌, ◌*◌, ◌<◌, ◌≤◌, length, drop};
ghost use Rattle.model.specs.Rules.{KeepsFrom};
ghost use Rattle.model.specs.Trail.{size};
ghost use Rattle.rules.specs.CallOrders.{CalledFirst};
ghost use Rattle.analysis.specs.States.{AreSettled};

use bound::solve::solve;
use model::cost::Cost;
use model::scope_graph::ScopeGraph;
use model::trail::Line;
use plain::copy::copy_scope;
use plain::edge_value::ScopeValues;
use rules::limits::SCOPES;
use trail::write::{clear_section, write_section};

// The scope at this place of the order, worked out by the bounds of the scopes that it calls, and written down. What it asks
// stands in `settle_all` too: a type for two functions, over lent tables, would need more clauses.
#[tactic(auto, using(crate::proofs::Steps::number_few))]
pub fn settle<C: Cost, G: ScopeGraph>(
    graph: &G,
    order: &[u8; SCOPES],
    place: usize,
    bounds: &mut [C],
    // beside the bounds, whose lent table holds costs alone
    solved: &mut [bool; SCOPES],
    table: &mut [C],
    trail: &mut [Line],
)
    requires keeps { KeepsFrom 22 (G.ScopeGraph.graph graph.now) }
    requires ordered { CalledFirst (G.ScopeGraph.graph graph.now) order.now }
    requires within { place < length (G.ScopeGraph.graph graph.now) }
    requires places { length bounds.old ≡ 16 }
    requires room { 32 ≤ length table.old }
    requires lines { size * length (G.ScopeGraph.graph graph.now) ≤ length trail.old }
    requires sofar { AreSettled C.measure (G.ScopeGraph.graph graph.now) bounds.old trail.old solved.old order.now place }
    ensures sofar { AreSettled C.measure (G.ScopeGraph.graph graph.now) bounds.new trail.new solved.new order.now (place + 1) }
    ensures rest { drop (size * length (G.ScopeGraph.graph graph.now)) trail.new ≡ drop (size * length (G.ScopeGraph.graph graph.now)) trail.old }
{
    // a cast: tried `usize::from`, whose answer the facts on the order did not follow
    let number = order[place] as usize;
    let scope = copy_scope(graph, number).unwrap();
    let values = ScopeValues {
        scope: &scope,
        bounds,
        solved,
    };
    match solve(&scope, &values, table).unwrap() {
        Some(run) => {
            write_section(trail, number, &scope, run.passes, &run.groups);
            bounds[number] = run.cost;
            solved[number] = true;
        }
        None => {
            clear_section(trail, number);
            bounds[number] = C::nothing();
            solved[number] = false;
        }
    }
}
