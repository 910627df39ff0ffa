// What is said of a cost: its measure and how much.
ghost use Rattle.std.specs.Prelude.{◌≡◌, ℕ, List, ◌++◌, Some, IfOk, string_bytes, codes, decimal, refl};

use measures::cycles::Cycles;
use measures::stack::Stack;
use std::alloc::{AllocError, Global};
use std::fmt;

// A cost whose display is known: what stands in a display may be left open, so the text is said here, and tied to it by a
// law.
pub trait CostText: fmt::Display {
    ghost said: { Self → List ℕ };

    // The text by itself.
    fn say(&self, heap: Global) -> Result<String, AllocError>
        ensures { IfOk result (λ t. string_bytes t ≡ said self.now) }
    {
        format!(in heap; "{self}")
    }

    ghost displays: { (c : Self) → Self.output c ≡ Some (said c) };
}

impl CostText for Cycles {
    ghost said = { λ c. codes "cycles " ++ decimal c.count };

    ghost displays = { λ c. refl };
}

impl CostText for Stack {
    ghost said = { λ c. codes "stack " ++ decimal c.bytes };

    ghost displays = { λ c. refl };
}
