// The table over the nodes, filled from the highest node down. The costs stand in the caller's table, which holds costs
// alone, so the edges chosen stand in an array beside it.
ghost use Rattle.std.specs.Prelude.{◌≡◌, ℕ, ◌+◌, ◌<◌, ◌≤◌, length, None};
ghost use Rattle.model.specs.declared.graph.Target.TheVariants.{To};
ghost use Rattle.model.specs.Best.{IsBest};
ghost use Rattle.search.specs.Endings.{stop};
ghost use Rattle.search.specs.Flows.{edges_of};
ghost use Rattle.search.specs.Tables.{entry, offer, costlier as costlier_step, cost_of_lem, OnSome, IsStep, IsEntry};
ghost use Rattle.search.specs.Walks.{TailCost, masked};

use crate::costlier::costlier;
use crate::ending::Ending;
use crate::flow::Flow;
use crate::lent::Table;
use crate::step::Step;
use crate::values::EdgeValues;
use model::cost::Cost;
use model::graph::Target;

// What a round searches: the edges that are left, what they cost, and how the pass ends.
#[derive(Drop)]
pub struct Round<'a, V> {
    pub flow: &'a Flow,
    pub values: &'a V,
    // beside the edges, in fixed memory: nothing is allocated
    pub usable: [bool; 96],
    pub ending: Ending,
}

// The entry of a node: what the costliest walk on from it costs.
pub fn entry_at<C: Cost>(table: &[C], choices: &[Option<u8>; 32], node: usize) -> Option<C>
    requires { (node < length table.now) × (node < 32) }
    ensures { result ≡ entry table.now choices.now node }
{
    choices[node].map(|_| table[node])
}

// What an edge offers, once the entries of the later nodes are known.
fn offer_of<C: Cost>(
    value: Option<C>,
    to: Target,
    ending: Ending,
    table: &[C],
    choices: &[Option<u8>; 32],
) -> Option<C>
    requires { (v : ℕ) → to ≡ To v → (v < length table.now) × (v < 32) }
    ensures { result ≡ offer C.measure value to ending table.now choices.now }
{
    let cost = value?;
    match to {
        Target::To(v) => {
            // a cast, as below
            let rest = entry_at(table, choices, v as usize)?;
            Some(cost.join(rest))
        }
        end if end == Target::from(ending) => Some(cost),
        Target::Again | Target::Leave => None,
    }
}

// The costlier of the best so far and what an edge offers.
fn costlier_of<C: Cost>(best: Option<Step<C>>, offered: Option<C>, edge: u8) -> Option<Step<C>>
    ensures { result ≡ costlier_step C.measure best offered edge }
{
    costlier(
        best.map(|step| step.cost),
        offered,
        best,
        offered.map(|cost| Step { cost, edge }),
    )
}

impl<'a, V> Round<'a, V> {
    // The value of an edge, if it is left.
    fn value<C: Cost>(&self, edge: usize) -> Option<C>
    where
        V: EdgeValues<C>,
        requires { edge < 96 }
        ensures { result ≡ masked (V.EdgeValues.values self.now.values.now) self.now.usable edge }
    {
        if self.usable[edge] {
            self.values.value(edge)
        } else {
            None
        }
    }

    // The costliest walk on from a node, once the entries of the later nodes are known.
    fn best_from<C: Cost>(
        &self,
        node: usize,
        table: &Table<C>,
        choices: &[Option<u8>; 32],
    ) -> Option<Step<C>>
    where
        V: EdgeValues<C>,
        requires low { node < 32 }
        requires above { (v : ℕ) → node < v → v < self.now.flow.now.nodes → IsBest C.measure (TailCost C.measure (masked (V.EdgeValues.values self.now.values.now) self.now.usable) (edges_of self.now.flow.now) (stop self.now.ending) (To v)) (entry table.now.costs.now choices.now v) }
        ensures best { IsBest C.measure (TailCost C.measure (masked (V.EdgeValues.values self.now.values.now) self.now.usable) (edges_of self.now.flow.now) (stop self.now.ending) (To node)) (cost_of_lem result) }
        ensures linked { OnSome (IsStep C.measure (masked (V.EdgeValues.values self.now.values.now) self.now.usable) (edges_of self.now.flow.now) self.now.ending table.now.costs.now choices.now node) result }
    {
        let flow = self.flow;
        let edges = flow.edges.as_slice();
        let mut best = None;
        let mut exit = flow.exits.first[node];
        // along the chain of the edges out of the node
        while let Some(e) = exit {
            // a cast: tried `usize::from`, whose answer the facts on the edge did not follow
            let edge = e as usize;
            let value = self.value(edge);
            let offered = offer_of(value, edges[edge].to, self.ending, table.costs, choices);
            best = costlier_of(best, offered, e);
            exit = flow.exits.next[edge];
        }
        best
    }

    // Fills the table and gives the first edge of the costliest walk on from each node.
    pub fn fill<C: Cost>(&self, table: &mut Table<C>) -> [Option<u8>; 32]
    where
        V: EdgeValues<C>,
        ensures { (k : ℕ) → k < self.now.flow.now.nodes → IsEntry C.measure (masked (V.EdgeValues.values self.now.values.now) self.now.usable) (edges_of self.now.flow.now) self.now.ending table.new.costs.now result k }
    {
        let mut choices = [None; 32];
        // by number: it is the place of the node in the table and in the choices alike
        for k in (0..self.flow.nodes).rev() {
            match self.best_from(k, table, &choices) {
                None => choices[k] = None,
                Some(step) => {
                    table.costs[k] = step.cost;
                    choices[k] = Some(step.edge);
                }
            }
        }
        choices
    }
}
