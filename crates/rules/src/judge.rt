// The broken rule of the smallest number in a graph.
ghost use Rattle.std.specs.Prelude.{◌≡◌, ℕ, ◌<◌, ◌≤◌, true, false, length, MatchBool};
ghost use Rattle.std.specs.List.{slice_get};
ghost use Rattle.model.specs.Rules.{Ring, Judged};
ghost use Rattle.rules.specs.Faults.{over, lowest, scope_finding_lem, Sized};

use crate::finding::{lower, lowest_of};
use crate::limits::SCOPES;
use crate::order::call_order;
use crate::scope::{over_limit, scope_finding};
use model::refusal::Refusal;
use model::scope_graph::ScopeGraph;

// Has some scope more nodes, edges or facts than it may have?
fn some_over_limit<G: ScopeGraph>(graph: &G, scopes: usize) -> bool
    ensures { MatchBool result ((k : ℕ) × (k < scopes) × (over (slice_get (G.ScopeGraph.graph graph.now) k) ≡ true)) ((k : ℕ) → k < scopes → over (slice_get (G.ScopeGraph.graph graph.now) k) ≡ false) }
{
    (0..scopes).any(|scope| over_limit(graph, scope))
}

// Does a scope reach itself through calls?
#[tactic(auto, using(crate::proofs::Rings::ring_where_none))]
fn has_ring<G: ScopeGraph>(graph: &G) -> bool
    requires { length (G.ScopeGraph.graph graph.now) ≤ 16 }
    ensures { MatchBool result (Ring (G.ScopeGraph.graph graph.now)) (Ring (G.ScopeGraph.graph graph.now) → ⊥) }
{
    call_order(graph).is_none()
}

// The rules of size: past them a graph is small, and each of its items can be looked at.
fn size_fault<G: ScopeGraph>(graph: &G) -> Option<Refusal>
    ensures { Sized (G.ScopeGraph.graph graph.now) result }
{
    let scopes = graph.scopes();
    if scopes == 0 {
        Some(Refusal::NoScope)
    } else if scopes > SCOPES || some_over_limit(graph, scopes) {
        Some(Refusal::OverLimit)
    } else {
        None
    }
}

// The broken rule of the smallest number in a graph, if any is broken: a finding and no failure of this call, and findings
// are joined as options.
pub fn first_broken<G: ScopeGraph>(graph: &G) -> Option<Refusal>
    ensures { Judged (G.ScopeGraph.graph graph.now) result }
{
    if let Some(fault) = size_fault(graph) {
        return Some(fault);
    }
    let scopes = graph.scopes();
    let fault = lowest_of(scopes, |scope| scope_finding(graph, scopes, scope));
    if has_ring(graph) {
        lower(fault, Some(Refusal::CallRing))
    } else {
        fault
    }
}
