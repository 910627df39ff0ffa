// A number of passes, and how they go.
use search::way::Way;

// The passes before `first` go as the whole ranges before it do, `whole` in number; from `first` on each goes
// the way `on`, and the last one, number `passes`, goes the way `off`.
#[derive(Clone, Copy)]
pub struct Choice<C> {
    pub cost: C,
    pub passes: u16,
    pub whole: usize,
    pub first: u16,
    pub on: Way,
    pub off: Way,
}
