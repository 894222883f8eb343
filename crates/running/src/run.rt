// What a run has lent while it is carried out.
ghost use Rattle.std.specs.Prelude.{◌≤◌, length};

use crate::registers::Registers;

// Registers, cells, of which there are at most 1,048,576, and a host.
#[derive(Drop)]
pub(crate) struct Run<'a, H> {
    pub(crate) registers: &'a mut Registers,
    pub(crate) cells: &'a mut [i32],
    pub(crate) host: &'a mut H,
    ghost small: { length cells.now ≤ 1048576 },
}
