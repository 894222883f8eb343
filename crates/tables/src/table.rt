// A list that grows at its end, over a lent slice.
ghost use Rattle.std.specs.Prelude.{◌≤◌, length};

pub mod items;

// The first `used` cells are the items of the list.
#[derive(Drop)]
pub struct Table<'a, T> {
    cells: &'a mut [T],
    used: usize,
    ghost within: { used ≤ length cells.now },
}
