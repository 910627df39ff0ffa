// What the facts in force ask of a pass, as edges that it must not use.
ghost use Rattle.std.specs.Prelude.{◌≡◌, not, ◌||◌, nat_lt};
ghost use Rattle.search.specs.Restrictions.{allows, restriction_of_lem, passes_by_lem};

use model::graph::{Constraint, Edge, Fact, Target};

#[derive(Clone, Copy, PartialEq, Eq, Debug)]
pub enum Restriction {
    // nothing is asked
    Free,
    // the node is not executed
    Avoid(u8),
    // the node is executed
    Visit(u8),
}

// Does the edge leave the node out: start before it, and lead past it?
fn passes_by(edge: Edge, node: u8) -> bool
    ensures { result ≡ passes_by_lem edge node }
{
    edge.from < node
        && match edge.to {
            Target::To(v) => node < v,
            Target::Again | Target::Leave => true,
        }
}

// May a pass that meets the restriction use the edge?
pub fn allowed(restriction: Restriction, edge: Edge) -> bool
    ensures { result ≡ allows restriction edge }
{
    match restriction {
        Restriction::Free => true,
        Restriction::Avoid(n) => n != 0 && edge.to != Target::To(n),
        Restriction::Visit(n) => !passes_by(edge, n),
    }
}

// Is the fact in force in this pass?
pub fn in_force(fact: Fact, pass: u16) -> bool
    ensures { result ≡ not (nat_lt pass fact.first || nat_lt fact.last pass) }
{
    (fact.first..=fact.last).contains(&pass)
}

// What a fact asks of this pass; of a pair, either node can be the one to avoid.
pub fn restriction_of(fact: Fact, pass: u16, second: bool) -> Restriction
    ensures { result ≡ restriction_of_lem fact pass second }
{
    if !in_force(fact, pass) {
        return Restriction::Free;
    }
    match fact.constraint {
        Constraint::Bar(n) => Restriction::Avoid(n),
        Constraint::Must(n) => Restriction::Visit(n),
        Constraint::Pair(n, m) => Restriction::Avoid(if second { m } else { n }),
    }
}
