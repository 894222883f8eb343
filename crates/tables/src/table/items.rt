// What a table does: it takes items at its end, hands them out, and lets the last ones go.
ghost use Rattle.std.specs.Prelude.{◌≡◌, ◌-◌, ◌<◌, [], length, take};
ghost use Rattle.tables.specs.Items.{items, capacity, item_at, HasRoom, Pushed, Extended};

use crate::table::Table;

impl<'a, T: Copy> Table<'a, T> {
    // An empty list over a slice.
    pub fn over(cells: &'a mut [T]) -> Table<'a, T>
        ensures empty { items result ≡ [] }
        ensures room { capacity result ≡ length cells.old }
        ensures cells { (result.used ≡ 0) × (result.cells.now ≡ cells.old) }
    {
        Table { cells, used: 0 }
    }

    // How many items there are.
    pub fn len(&self) -> usize
        ensures { result ≡ length (items self.now) }
    {
        self.as_slice().len()
    }

    // How many items there may be.
    pub fn capacity(&self) -> usize
        ensures { result ≡ capacity self.now }
    {
        self.cells.len()
    }

    // How many items may be added.
    pub fn room(&self) -> usize
        ensures { result ≡ capacity self.now - length (items self.now) }
    {
        self.capacity() - self.len()
    }

    // Adds an item, and says where it stands.
    pub fn push(&mut self, item: T) -> usize
        requires { length (items self.old) < capacity self.old }
        ensures { Pushed self.old item result self.new }
    {
        let at = self.used;
        self.cells[at] = item;
        self.used = at + 1;
        at
    }

    // Adds items, one after the other.
    pub fn extend_from_slice(&mut self, more: &[T])
        requires { HasRoom self.old more.now }
        ensures { Extended self.old more.now self.new }
    {
        let end = self.used + more.len();
        self.cells[self.used..end].copy_from_slice(more);
        self.used = end;
    }

    // The item at a number, or none past the end.
    pub fn get(&self, at: usize) -> Option<T>
        ensures { result ≡ item_at (items self.now) at }
    {
        self.as_slice().get(at).copied()
    }

    // All items, in order.
    pub fn as_slice(&self) -> &[T]
        ensures { result.now ≡ items self.now }
    {
        &self.cells[..self.used]
    }

    // Lets go all items but the first `len`.
    pub fn truncate(&mut self, len: usize)
        ensures items { items self.new ≡ take len (items self.old) }
        ensures room { capacity self.new ≡ capacity self.old }
    {
        self.used = self.used.min(len);
    }

    // Lets go all items.
    pub fn clear(&mut self)
        ensures items { items self.new ≡ [] }
        ensures room { capacity self.new ≡ capacity self.old }
    {
        self.used = 0;
    }
}
