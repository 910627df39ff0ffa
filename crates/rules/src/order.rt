// An order of the scopes in which every called scope stands before its callers. Rows and marks stand in fixed memory:
// nothing is allocated.
ghost use Rattle.std.specs.Prelude.{◌≤◌};
ghost use Rattle.rules.specs.CallOrders.{Next, Ordered};

use crate::calls::{call_table, ready};
use crate::limits::SCOPES;
use model::scope_graph::ScopeGraph;

// The first scope that is not placed yet and calls placed scopes only.
fn next_ready(
    table: &[[bool; SCOPES]; SCOPES],
    placed: &[bool; SCOPES],
    scopes: usize,
) -> Option<usize>
    requires { scopes ≤ 16 }
    ensures { Next table.now placed.now scopes result }
{
    let mut rows = table.iter().zip(placed).take(scopes);
    rows.position(|(row, done)| !*done && ready(row, placed, scopes))
}

// The scopes in an order in which every called scope stands before its callers. There is none for
// more than 16 scopes, or where a scope reaches itself through calls.
pub fn call_order<G: ScopeGraph>(graph: &G) -> Option<[u8; SCOPES]>
    ensures { Ordered (G.ScopeGraph.graph graph.now) result }
{
    let scopes = graph.scopes();
    if scopes > SCOPES {
        return None;
    }
    let table = call_table(graph, scopes);
    let mut order = [0; SCOPES];
    let mut placed = [false; SCOPES];
    // by number: it is the place in the order; a chain would have to carry both arrays along, and is no plainer
    for k in 0..scopes {
        let scope = next_ready(&table, &placed, scopes)?;
        placed[scope] = true;
        order[k] = scope as u8;
    }
    Some(order)
}
