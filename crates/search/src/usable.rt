// The edges that are left in a round: those that a pass which meets the facts may use.
ghost use Rattle.std.specs.Prelude.{◌≡◌, Bool, not, ◌||◌};
ghost use Rattle.model.specs.declared.graph.Fact.{Fact as FactValue};
ghost use Rattle.search.specs.Flows.{edges_of, facts_of};
ghost use Rattle.search.specs.Rounds.{restrictions, allows_all, splits, useful, told, AreUsable};

use crate::flow::Flow;
use crate::restriction::{allowed, in_force, restriction_of};
use model::graph::{Constraint, Edge, Fact};

// Does every fact pass the test, each with its digit of the round's number in base two?
fn all_told<F: Fn(Fact, bool) -> bool>(facts: &[Fact], round: u8, test: F) -> bool
    requires { F.IsAlwaysCallable test }
    ensures { (t : FactValue → Bool → Bool) → ((f : FactValue) (b r : Bool) → F.post test f b r → r ≡ t f b) → result ≡ told t facts.now round }
{
    let mut digits = round;
    for fact in facts {
        if !test(*fact, digits % 2 == 1) {
            return false;
        }
        digits /= 2;
    }
    true
}

// Does the fact ask for one of two nodes to be avoided in this pass?
fn splits_rounds(fact: Fact, pass: u16) -> bool
    ensures { result ≡ splits fact pass }
{
    in_force(fact, pass) && matches!(fact.constraint, Constraint::Pair(_, _))
}

// Is this round another than all the earlier ones?
pub fn is_useful(flow: &Flow, pass: u16, round: u8) -> bool
    ensures { result ≡ useful (facts_of flow.now) pass round }
{
    // a digit that makes no difference is 0
    all_told(flow.facts.as_slice(), round, |fact, second| {
        splits_rounds(fact, pass) || !second
    })
}

// May a pass that meets the restrictions of this round use the edge?
fn is_left(flow: &Flow, pass: u16, round: u8, edge: Edge) -> bool
    ensures { result ≡ allows_all (restrictions (facts_of flow.now) pass round) edge }
{
    all_told(flow.facts.as_slice(), round, |fact, second| {
        allowed(restriction_of(fact, pass, second), edge)
    })
}

// The edges that are left in this round.
pub fn usable_edges(flow: &Flow, pass: u16, round: u8) -> [bool; 96]
    ensures { AreUsable (edges_of flow.now) (facts_of flow.now) pass round result }
{
    let mut usable = [false; 96];
    for (e, edge) in flow.edges.as_slice().iter().enumerate() {
        usable[e] = is_left(flow, pass, round, *edge);
    }
    usable
}
