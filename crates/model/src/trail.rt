// The trail table, which shows a worst-case run of each scope.

// The lines of a section: one section for each scope.
pub const SECTION: usize = 331;

// One line of the table. Laid out as in C, so that C programs can lend tables of it; that is why its kind is a number.
#[repr(C)]
#[derive(Clone, Copy, PartialEq, Eq, Default, Debug)]
pub struct Line {
    pub kind: u8,
    pub a: u16,
    pub b: u16,
}
