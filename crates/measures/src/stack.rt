// A height of the stack.
ghost use Rattle.std.specs.Prelude.{◌++◌, Some, codes, decimal};

use std::fmt;

// Laid out as in C, so that C programs can lend tables of it.
#[repr(C)]
#[derive(Clone, Copy, PartialEq, Eq, Debug)]
pub struct Stack {
    pub bytes: u16,
}

impl fmt::Display for Stack {
    ghost output = { λ c. Some (codes "stack " ++ decimal c.bytes) };

    fn fmt<W: fmt::Write>(&self, f: &mut fmt::Formatter<W>) -> fmt::Result {
        let bytes = self.bytes;
        write!(f, "stack {bytes}")
    }
}
