// A number of cycles.
ghost use Rattle.std.specs.Prelude.{◌^◌, ◌<◌, ◌++◌, Some, codes, decimal};

use std::fmt;

// The greatest count stands for that much or more.
// Laid out as in C, so that C programs can lend tables of it.
#[repr(C)]
#[derive(Clone, Copy, PartialEq, Eq, Debug)]
pub struct Cycles {
    pub count: u64,
    ghost fits: { count < 2 ^ 64 },
}

impl fmt::Display for Cycles {
    ghost output = { λ c. Some (codes "cycles " ++ decimal c.count) };

    fn fmt<W: fmt::Write>(&self, f: &mut fmt::Formatter<W>) -> fmt::Result {
        let count = self.count;
        write!(f, "cycles {count}")
    }
}
