// A list of items in an array, with room for N.
ghost use Rattle.std.specs.Prelude.{◌≡◌, ◌≤◌, ⊤, length};

use std::alloc::AllocError;

// There is no room for more.
#[derive(Clone, Copy, PartialEq, Eq, Debug)]
pub struct Full;

pub struct Row<T, const N: usize> {
    items: [T; N],
    len: usize,
    ghost wide: { length items ≡ N },
    ghost short: { len ≤ N },
}

// By hand: a derive is refused over the ghost fields of a generic struct.
impl<T: Copy, const N: usize> Copy for Row<T, N> {}

impl<T: Copy, const N: usize> Clone for Row<T, N> {
    ghost is_clone = { λ row copy. copy ≡ row };

    ghost is_infallible = { λ _. ⊤ };

    fn clone(&self) -> Result<Row<T, N>, AllocError> {
        Ok(*self)
    }
}

pub mod changes;
pub mod reads;
