// What is wrong in a scope: its nodes, edges and facts, one by one.
ghost use Rattle.std.specs.Prelude.{◌≡◌};
ghost use Rattle.std.specs.List.{slice_get};
ghost use Rattle.rules.specs.Faults.{node_finding_lem, edge_finding_lem, fact_finding_lem, scope_finding_lem, lowest, over};

use crate::finding::{lower, lowest_of};
use crate::item::{edge_fault, fact_fault, node_fault, passes_fault};
use crate::limits::{EDGES, FACTS, NODES};
use model::refusal::Refusal;
use model::scope_graph::ScopeGraph;

// Has the scope more nodes, edges or facts than it may have?
pub fn over_limit<G: ScopeGraph>(graph: &G, scope: usize) -> bool
    ensures { result ≡ over (slice_get (G.ScopeGraph.graph graph.now) scope) }
{
    match (graph.nodes(scope), graph.edges(scope), graph.facts(scope)) {
        (Some(nodes), Some(edges), Some(facts)) => {
            nodes > NODES || edges > EDGES || facts > FACTS
        }
        _ => false,
    }
}

fn node_finding<G: ScopeGraph>(graph: &G, scopes: usize, scope: usize, n: usize) -> Option<Refusal>
    ensures { result ≡ node_finding_lem (G.ScopeGraph.graph graph.now) scopes scope n }
{
    let node = graph.node(scope, n)?;
    node_fault(scopes, node)
}

fn edge_finding<G: ScopeGraph>(graph: &G, nodes: usize, scope: usize, n: usize) -> Option<Refusal>
    ensures { result ≡ edge_finding_lem (G.ScopeGraph.graph graph.now) nodes scope n }
{
    let edge = graph.edge(scope, n)?;
    let start = graph.node(scope, usize::from(edge.from));
    edge_fault(nodes, start, edge)
}

fn fact_finding<G: ScopeGraph>(
    graph: &G,
    nodes: usize,
    most: u16,
    scope: usize,
    n: usize,
) -> Option<Refusal>
    ensures { result ≡ fact_finding_lem (G.ScopeGraph.graph graph.now) nodes most scope n }
{
    let fact = graph.fact(scope, n)?;
    fact_fault(nodes, most, fact)
}

// The broken rule of the smallest number in a scope, where it is there.
pub fn scope_finding<G: ScopeGraph>(graph: &G, scopes: usize, scope: usize) -> Option<Refusal>
    ensures { result ≡ scope_finding_lem (G.ScopeGraph.graph graph.now) scopes scope }
{
    let (least, most) = graph.passes(scope)?;
    let nodes = graph.nodes(scope)?;
    let edges = graph.edges(scope)?;
    let facts = graph.facts(scope)?;
    let in_nodes = lowest_of(nodes, |n| node_finding(graph, scopes, scope, n));
    let in_edges = lowest_of(edges, |n| edge_finding(graph, nodes, scope, n));
    let in_facts = lowest_of(facts, |n| fact_finding(graph, nodes, most, scope, n));
    lower(
        passes_fault(least, most),
        lower(in_nodes, lower(in_edges, in_facts)),
    )
}
