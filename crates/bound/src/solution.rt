// What the search for the bound of a scope comes to.
use trail::groups::Groups;

// A worst-case run of a scope: what it costs, its number of passes, and their groups.
#[derive(Clone, Copy)]
pub struct Solution<C> {
    pub cost: C,
    pub passes: u16,
    pub groups: Groups,
}

// The scope has no least number of passes, a fact ends before it begins, or the table is too short.
#[derive(Clone, Copy, PartialEq, Eq, Debug)]
pub struct Unfit;
