// The lent table of a search.
ghost use Rattle.std.specs.Prelude.{◌≤◌, length};

// Lent costs, with a place for each node of a scope. No array: it is not known in generic code that 32 costs fit memory.
#[derive(Drop)]
pub struct Table<'a, C> {
    pub costs: &'a mut [C],
    ghost room: { 32 ≤ length costs.now },
}
