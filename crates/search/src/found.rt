// The costliest pass with an ending: what it costs and its way, or neither where there is no such pass.
// A rule of the project: the record of a cost that may be absent has this form, the cost and the way beside one another.
use crate::way::Way;

#[derive(Clone, Copy)]
pub struct Costliest<C> {
    pub cost: Option<C>,
    pub way: Way,
}
