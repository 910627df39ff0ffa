// The parts of a scope graph.

// A block of straight code, or a call of a scope.
#[derive(Clone, Copy, PartialEq, Eq, Debug)]
pub enum Node {
    Block { time: u32, stack: u16 },
    Call { scope: u8 },
}

// Where an edge leads: to a node, to the next pass of its scope, or out of the scope.
#[derive(Clone, Copy, PartialEq, Eq, Debug)]
pub enum Target {
    To(u8),
    Again,
    Leave,
}

// An edge carries the pipeline effect between its two ends, in cycles.
#[derive(Clone, Copy, PartialEq, Eq, Debug)]
pub struct Edge {
    pub from: u8,
    pub to: Target,
    pub effect: i32,
}

// What a flow fact asks of the nodes that a pass executes.
#[derive(Clone, Copy, PartialEq, Eq, Debug)]
pub enum Constraint {
    // this node is not executed
    Bar(u8),
    // this node is executed
    Must(u8),
    // these two are not both executed
    Pair(u8, u8),
}

// A flow fact holds for each pass from first to last by itself.
#[derive(Clone, Copy, PartialEq, Eq, Debug)]
pub struct Fact {
    pub constraint: Constraint,
    pub first: u16,
    pub last: u16,
}
