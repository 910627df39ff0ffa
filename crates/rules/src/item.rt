// What is wrong with one item of a graph: the broken rule of the smallest number, if any.
ghost use Rattle.std.specs.Prelude.{◌≡◌};
ghost use Rattle.rules.specs.Faults.{passes_fault_lem, node_fault_lem, effect_over_lem, leads_beyond_lem, leads_back_lem, weight_below_lem, edge_fault_lem, names_beyond_lem, names_twice_lem, fact_fault_lem};

use crate::limits::{LARGEST, LONGEST};
use model::graph::{Constraint, Edge, Fact, Node, Target};
use model::refusal::Refusal;

pub fn passes_fault(least: u16, most: u16) -> Option<Refusal>
    ensures { result ≡ passes_fault_lem least most }
{
    if least == 0 || most < least {
        Some(Refusal::BadPasses)
    } else {
        None
    }
}

pub fn node_fault(scopes: usize, node: Node) -> Option<Refusal>
    ensures { result ≡ node_fault_lem scopes node }
{
    match node {
        Node::Block { time, .. } if time > LONGEST => Some(Refusal::BadFigure),
        Node::Call { scope } if usize::from(scope) >= scopes => Some(Refusal::Missing),
        _ => None,
    }
}

fn effect_over(effect: i32) -> bool
    ensures { result ≡ effect_over_lem effect }
{
    !(-LARGEST..=LARGEST).contains(&effect)
}

fn leads_beyond(nodes: usize, to: Target) -> bool
    ensures { result ≡ leads_beyond_lem nodes to }
{
    matches!(to, Target::To(n) if nodes <= usize::from(n))
}

fn leads_back(from: u8, to: Target) -> bool
    ensures { result ≡ leads_back_lem from to }
{
    matches!(to, Target::To(n) if n <= from)
}

// An edge weighs its start's time, if that is a block, plus its effect.
fn weight_below(start: Option<Node>, effect: i32) -> bool
    ensures { result ≡ weight_below_lem start effect }
{
    match start {
        Some(Node::Block { time, .. }) => i64::from(time) + i64::from(effect) < 0,
        Some(Node::Call { .. }) => effect < 0,
        None => false,
    }
}

pub fn edge_fault(nodes: usize, start: Option<Node>, edge: Edge) -> Option<Refusal>
    ensures { result ≡ edge_fault_lem nodes start edge }
{
    if effect_over(edge.effect) {
        Some(Refusal::BadFigure)
    } else if nodes <= usize::from(edge.from) || leads_beyond(nodes, edge.to) {
        Some(Refusal::Missing)
    } else if leads_back(edge.from, edge.to) {
        Some(Refusal::NotForward)
    } else if weight_below(start, edge.effect) {
        Some(Refusal::NegativeWeight)
    } else {
        None
    }
}

fn names_beyond(nodes: usize, constraint: Constraint) -> bool
    ensures { result ≡ names_beyond_lem nodes constraint }
{
    match constraint {
        Constraint::Bar(n) | Constraint::Must(n) => nodes <= usize::from(n),
        Constraint::Pair(n, m) => nodes <= usize::from(n) || nodes <= usize::from(m),
    }
}

fn names_twice(constraint: Constraint) -> bool
    ensures { result ≡ names_twice_lem constraint }
{
    matches!(constraint, Constraint::Pair(n, m) if n == m)
}

pub fn fact_fault(nodes: usize, most: u16, fact: Fact) -> Option<Refusal>
    ensures { result ≡ fact_fault_lem nodes most fact }
{
    if names_beyond(nodes, fact.constraint) {
        Some(Refusal::Missing)
    } else if fact.first == 0
        || fact.last < fact.first
        || most < fact.last
        || names_twice(fact.constraint)
    {
        Some(Refusal::BadFact)
    } else {
        None
    }
}
