// The groups of passes of a run: in each, all passes go the same way.
use row::row::Row;
use search::way::Way;

// Passes `first` to `last`.
#[derive(Clone, Copy)]
pub struct PassGroup {
    pub first: u16,
    pub last: u16,
    pub way: Way,
}

pub type Groups = Row<PassGroup, 10>;
