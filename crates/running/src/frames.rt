// Instructions that take, enter and leave frames.
#![tactic(auto, using(crate::proofs::Settling::settling))]

ghost use Rattle.std.specs.Prelude.{◌<◌};
ghost use Rattle.machine.specs.declared.instruction.Instruction.TheVariants.{Frame, Enter, Leave};
ghost use Rattle.machine.specs.Machine.{effect, link};
ghost use Rattle.running.specs.Running.{Carried};
ghost use Rattle.running.specs.Settling.{Settles};

use crate::address::Address;
use crate::flow::Flow;
use crate::memory::clear;
use crate::run::Run;
use machine::fault::Fault;
use machine::host::Host;

// What a frame's link holds.
fn link(cell: i32) -> Result<Address, Fault>
    ensures { Settles (link cell) result }
{
    let number = u32::try_from(cell).map_err(|_| Fault::Link)?;
    Ok(Address::new(number))
}

impl<H: Host> Run<'_, H> {
    // Takes a frame: pushes its start and makes its cells 0.
    pub(crate) fn take_frame(&mut self, size: u32) -> Result<Flow, Fault>
        ensures { Carried H.Host (effect (Frame size)) self.old result self.new }
    {
        self.registers.room()?;
        let start = self.registers.top;
        if u64::from(start) + u64::from(size) > self.cells.len() as u64 {
            return Err(Fault::NoMemory);
        }
        clear(self.cells, start as usize, size);
        self.registers.top = start + size;
        self.registers.push(start as i32)?;
        Ok(Flow::Next)
    }

    // Enters a procedure: the frame's two links keep the way back and the level's old base.
    pub(crate) fn enter(&mut self, level: u8, to: u32) -> Result<Flow, Fault>
        requires { self.old.registers.now.next < 1048576 }
        ensures { Carried H.Host (effect (Enter level to)) self.old result self.new }
    {
        let start = self.registers.pop()?;
        let at = self.place(i64::from(start), 2)?;
        self.cells[at] = (self.registers.next + 1) as i32;
        self.cells[at + 1] = i32::from(self.registers.base(level));
        self.registers.set_base(level, Address::new(at as u32));
        Ok(Flow::To(to))
    }

    // Leaves a procedure: its frame goes, and the links say where to go on and what the level's base was.
    pub(crate) fn leave(&mut self, level: u8) -> Result<Flow, Fault>
        ensures { Carried H.Host (effect (Leave level)) self.old result self.new }
    {
        let start = self.registers.base(level).number();
        let at = start as usize;
        if at + 2 > self.cells.len() {
            return Err(Fault::Address);
        }
        let next = link(self.cells[at])?;
        let base = link(self.cells[at + 1])?;
        self.registers.top = start;
        self.registers.set_base(level, base);
        Ok(Flow::To(next.number()))
    }
}
