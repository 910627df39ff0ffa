// The costliest pass with an ending, under the facts in force.
ghost use Rattle.std.specs.Prelude.{◌≡◌, ◌^◌, ◌≤◌, length};
ghost use Rattle.search.specs.Flows.{edges_of, facts_of};
ghost use Rattle.search.specs.Found.{Searched, IsRoundBest};

use crate::costlier::costlier;
use crate::ending::Ending;
use crate::flow::Flow;
use crate::follow::follow;
use crate::found::Costliest;
use crate::lent::Table;
use crate::table::{Round, entry_at};
use crate::usable::{is_useful, usable_edges};
use crate::values::EdgeValues;
use model::cost::Cost;
use row::row::Row;

// The costliest pass that uses only the edges left in this round.
fn round_best<C: Cost, V: EdgeValues<C>>(
    flow: &Flow,
    values: &V,
    pass: u16,
    round: u8,
    ending: Ending,
    table: &mut Table<C>,
) -> Costliest<C>
    ensures { IsRoundBest C.measure (V.EdgeValues.values values.now) (edges_of flow.now) (facts_of flow.now) pass ending round result }
{
    let none = Costliest {
        cost: None,
        way: Row::new(0),
    };
    if flow.nodes == 0 {
        return none;
    }
    let search = Round {
        flow,
        values,
        usable: usable_edges(flow, pass, round),
        ending,
    };
    let choices = search.fill(table);
    match entry_at(table.costs, &choices, 0) {
        None => none,
        Some(cost) => Costliest {
            cost: Some(cost),
            way: follow(flow, &choices),
        },
    }
}

// Two rounds for each fact, since each may be a pair.
fn rounds(facts: usize) -> u8
    requires { facts ≤ 4 }
    ensures { result ≡ 2 ^ facts }
{
    1 << facts
}

impl Flow {
    // The costliest pass of this number with this ending; none only where the table has fewer than 32 places.
    pub fn costliest<C: Cost, V: EdgeValues<C>>(
        &self,
        values: &V,
        pass: u16,
        ending: Ending,
        table: &mut [C],
    ) -> Option<Costliest<C>>
        ensures { Searched C.measure (V.EdgeValues.values values.now) (edges_of self.now) (facts_of self.now) pass ending table.old table.new result }
    {
        if table.len() < 32 {
            return None;
        }
        let mut table = Table { costs: table };
        let mut best = Costliest {
            cost: None,
            way: Row::new(0),
        };
        // by number: its digits say which nodes are avoided
        for round in 0..rounds(self.facts.len()) {
            if is_useful(self, pass, round) {
                let found = round_best(self, values, pass, round, ending, &mut table);
                best = costlier(best.cost, found.cost, best, found);
            }
        }
        Some(best)
    }
}
