// Small graphs of blocks.
ghost use Rattle.search_tests.specs.Values.{cost_of_lem, cost_at};
ghost use Rattle.std.specs.Prelude.{◌≡◌};

use model::cost::Cost;
use model::graph::{Edge, Target};
use search::values::EdgeValues;

// The weights and stacks of the first eight edges, of which some may have none.
#[derive(Clone, Copy)]
pub struct Values {
    pub items: [Option<(u32, u16)>; 8],
}

// The cost of a weight and a stack, where they are there.
pub fn cost_of<C: Cost>(item: Option<(u32, u16)>) -> Option<C>
    ensures { result ≡ cost_of_lem C.measure item }
{
    item.map(|(weight, stack)| C::of(weight, stack))
}

impl<C: Cost> EdgeValues<C> for Values {
    ghost values = { λ v e. cost_at C.measure v.items e };

    fn value(&self, edge: usize) -> Option<C> {
        cost_of(*self.items.get(edge)?)
    }
}

// Blocks with their time and stack, and edges.
#[derive(Clone, Copy)]
pub struct Small<'a> {
    pub blocks: &'a [(u32, u16)],
    pub edges: &'a [Edge],
}

pub(crate) fn edge(from: u8, to: Target, effect: i32) -> Edge {
    Edge { from, to, effect }
}

// The weight and the stack of an edge: the time of its block and its effect, and the stack of the block.
fn weighed(blocks: &[(u32, u16)], edge: Edge) -> Option<(u32, u16)> {
    let (time, stack) = *blocks.get(edge.from as usize)?;
    Some((time.saturating_add_signed(edge.effect), stack))
}

impl Small<'_> {
    // The values of its edges, but for one edge that has none.
    pub(crate) fn values(self, without: usize) -> Values {
        let mut items = [None; 8];
        for (e, (item, edge)) in items.iter_mut().zip(self.edges).enumerate() {
            if e != without {
                *item = weighed(self.blocks, *edge);
            }
        }
        Values { items }
    }
}
