// Cells of memory.
ghost use Rattle.std.specs.Prelude.{◌≡◌, ◌+◌, ◌≤◌, length, IfOk};
ghost use Rattle.machine.specs.Cells.{zeroed, moved};
ghost use Rattle.machine.specs.Machine.{within};
ghost use Rattle.running.specs.Settling.{Settles};

use crate::run::Run;
use machine::fault::Fault;

impl<H> Run<'_, H> {
    // Where `count` cells from an address on begin, if they lie in memory; none at all lie anywhere.
    pub(crate) fn place(&self, at: i64, count: u32) -> Result<usize, Fault>
        ensures settles { Settles (within at count self.now.cells.now) result }
        ensures room { IfOk result (λ start. start + count ≤ length self.now.cells.now) }
    {
        if count == 0 {
            return Ok(0);
        }
        let start = usize::try_from(at).map_err(|_| Fault::Address)?;
        if start + count as usize <= self.cells.len() {
            Ok(start)
        } else {
            Err(Fault::Address)
        }
    }
}

// Makes cells 0.
pub(crate) fn clear(cells: &mut [i32], at: usize, count: u32)
    requires { at + count ≤ length cells.old }
    ensures { cells.new ≡ zeroed cells.old at count }
{
    cells[at..at + count as usize].fill(0);
}

// Copies cells as they were before, also where the two stretches overlap.
pub(crate) fn copy(cells: &mut [i32], to: usize, from: usize, count: u32)
    requires room { to + count ≤ length cells.old }
    requires source { from + count ≤ length cells.old }
    ensures { cells.new ≡ moved cells.old to from count }
{
    cells.copy_within(from..from + count as usize, to);
}
