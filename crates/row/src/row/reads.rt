// Reading a row.
ghost use Rattle.std.specs.Prelude.{◌≡◌, ◌≤◌, length};
ghost use Rattle.std.specs.List.{slice_get};
ghost use Rattle.row.specs.Rows.{items_of};

use crate::row::Row;

impl<T: Copy, const N: usize> Row<T, N> {
    // The items.
    pub fn as_slice(&self) -> &[T]
        ensures { result.now ≡ items_of self.now }
    {
        let all = self.items.as_slice();
        &all[0..self.len]
    }

    // How many items there are.
    pub fn len(&self) -> usize
        ensures count { result ≡ length (items_of self.now) }
        ensures few { result ≤ N }
    {
        self.as_slice().len()
    }

    // Item number i.
    pub fn get(&self, i: usize) -> Option<T>
        ensures { result ≡ slice_get (items_of self.now) i }
    {
        self.as_slice().get(i).copied()
    }
}
