// One scope of a workbook, with room for one thing more than it may hold, so that a change can be tried.
ghost use Rattle.std.specs.Prelude.{◌≤◌, vec_capacity};

use model::graph::{Edge, Fact, Node};

pub mod answers;
pub mod changes;

#[derive(Drop)]
pub struct Sheet {
    least: u16,
    most: u16,
    nodes: Vec<Node>,
    edges: Vec<Edge>,
    facts: Vec<Fact>,
    ghost noderoom: { 33 ≤ vec_capacity nodes },
    ghost edgeroom: { 97 ≤ vec_capacity edges },
    ghost factroom: { 5 ≤ vec_capacity facts },
}
