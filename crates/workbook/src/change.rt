// The steps of a workbook, each with one that undoes it.
use model::graph::{Edge, Fact, Node};

// A change of one scope. Lists lose an element only at their end, so what is taken off needs no name: one variant for
// each list is plainer than an element and a list named apart.
#[derive(Clone, Copy)]
pub enum Change {
    PushNode(Node),
    PopNode,
    PushEdge(Edge),
    PopEdge,
    PushFact(Fact),
    PopFact,
    // least, most
    Passes(u16, u16),
    // node, time, stack: of a block
    Figures(usize, u32, u16),
}

#[derive(Clone, Copy)]
pub enum Step {
    // a new scope at the end: least, most
    Open(u16, u16),
    // the newest scope taken away
    Close,
    // a change of a scope by its number
    In(usize, Change),
}
