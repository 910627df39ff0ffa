// The calls that change a workbook. The passes of a scope and the figures of a block stand here as they stand in a
// graph, each by its own name: a struct for two of them would be taken apart at every use.
use model::graph::{Edge, Fact};

#[derive(Clone, Copy, PartialEq, Eq, Debug)]
pub enum Edit {
    AddScope {
        least: u16,
        most: u16,
    },
    AddBlock {
        scope: usize,
        time: u32,
        stack: u16,
    },
    AddCall {
        scope: usize,
        callee: u8,
    },
    AddEdge {
        scope: usize,
        edge: Edge,
    },
    AddFact {
        scope: usize,
        fact: Fact,
    },
    SetPasses {
        scope: usize,
        least: u16,
        most: u16,
    },
    SetFigures {
        scope: usize,
        node: usize,
        time: u32,
        stack: u16,
    },
    Strike {
        scope: usize,
    },
}
