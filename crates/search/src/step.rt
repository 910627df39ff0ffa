// The first edge of a walk on from a node, and what that walk costs.
#[derive(Clone, Copy)]
pub struct Step<C> {
    pub cost: C,
    pub edge: u8,
}
