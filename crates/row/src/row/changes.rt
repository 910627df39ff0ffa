// Making and changing a row.
ghost use Rattle.std.specs.Prelude.{◌≡◌, ◌≤◌, ◌<◌, ◌+◌, [], ◌∷◌, ◌++◌, length, take, ◌↔◌, IsOk};
ghost use Rattle.row.specs.Rows.{items_of};

use crate::row::{Full, Row};

impl<T: Copy, const N: usize> Row<T, N> {
    // A row without items: `blank` fills the array.
    pub fn new(blank: T) -> Row<T, N>
        ensures { items_of result ≡ [] }
    {
        Row {
            items: [blank; N],
            len: 0,
        }
    }

    // One item more at the end, where there is room for it.
    pub fn push(&mut self, item: T) -> Result<(), Full>
        ensures variant { IsOk result ↔ (length (items_of self.old) < N) }
        ensures room { length (items_of self.old) < N → items_of self.new ≡ items_of self.old ++ (item ∷ []) }
        ensures full { N ≤ length (items_of self.old) → self.new ≡ self.old }
    {
        if self.len == N {
            return Err(Full);
        }
        self.items[self.len] = item;
        self.len += 1;
        Ok(())
    }

    // The first n items alone.
    pub fn truncate(&mut self, n: usize)
        ensures { items_of self.new ≡ take n (items_of self.old) }
    {
        if n < self.len {
            self.len = n;
        }
    }

    // These items more at the end, where there is room for all.
    pub fn extend_from_slice(&mut self, items: &[T]) -> Result<(), Full>
        ensures variant { IsOk result ↔ (length (items_of self.old) + length items.now ≤ N) }
        ensures room { length (items_of self.old) + length items.now ≤ N → items_of self.new ≡ items_of self.old ++ items.now }
        ensures full { N < length (items_of self.old) + length items.now → self.new ≡ self.old }
    {
        if N - self.len < items.len() {
            return Err(Full);
        }
        let end = self.len + items.len();
        let all = self.items.as_mut_slice();
        all[self.len..end].copy_from_slice(items);
        self.len = end;
        Ok(())
    }
}
