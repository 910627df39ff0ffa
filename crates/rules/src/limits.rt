// The limits of a graph.

// The most scopes of a graph.
pub const SCOPES: usize = 16;

// The most nodes of a scope.
pub const NODES: usize = 32;

// The most edges of a scope.
pub const EDGES: usize = 96;

// The most flow facts of a scope.
pub const FACTS: usize = 4;

// The longest time of a block, in cycles.
pub const LONGEST: u32 = 1_000_000;

// The largest effect of an edge, in cycles, either way.
pub const LARGEST: i32 = 1_000_000;
