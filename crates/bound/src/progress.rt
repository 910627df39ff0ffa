// How far the search for the bound of a scope has come.
use crate::choice::Choice;
use trail::groups::Groups;

// After the first `done` passes, which go on in these groups at this cost, if they can; and the best number of
// passes so far.
#[derive(Clone, Copy)]
pub struct Progress<C> {
    pub done: u16,
    pub front: Option<C>,
    pub groups: Groups,
    pub best: Option<Choice<C>>,
}
