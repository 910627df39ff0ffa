// The records of an image.
#[derive(Clone, Copy)]
pub enum Record {
    // least, most
    Scope(u16, u16),
    // scope, time, stack
    Block(u8, u32, u16),
    // scope, called scope
    Call(u8, u8),
    // scope, from, to, effect
    Edge(u8, u8, u8, i32),
    // scope, node, first, last
    Bar(u8, u8, u16, u16),
    Must(u8, u8, u16, u16),
    // scope, node, node, first, last
    Pair(u8, u8, u8, u16, u16),
}

// Where an edge to no node leads. Targets and kinds are the bytes themselves here, so that tests can write any image.
pub const AGAIN: u8 = 254;

pub const LEAVE: u8 = 255;
