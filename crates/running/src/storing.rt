// Instructions that write cells.
#![tactic(auto, using(crate::proofs::Settling::settling))]

ghost use Rattle.machine.specs.declared.instruction.Instruction.TheVariants.{St, Stk, Copy, Zero};
ghost use Rattle.machine.specs.Machine.{effect};
ghost use Rattle.running.specs.Running.{Carried};

use crate::flow::Flow;
use crate::memory::{clear, copy};
use crate::run::Run;
use machine::fault::Fault;
use machine::host::Host;

impl<H: Host> Run<'_, H> {
    // Writes the value on top to the address below it.
    pub(crate) fn store(&mut self) -> Result<Flow, Fault>
        ensures { Carried H.Host (effect St) self.old result self.new }
    {
        let value = self.registers.pop()?;
        let address = self.registers.pop()?;
        let at = self.place(i64::from(address), 1)?;
        self.cells[at] = value;
        Ok(Flow::Next)
    }

    // The same, and the value stays.
    pub(crate) fn store_and_keep(&mut self) -> Result<Flow, Fault>
        ensures { Carried H.Host (effect Stk) self.old result self.new }
    {
        let value = self.registers.pop()?;
        let address = self.registers.pop()?;
        let at = self.place(i64::from(address), 1)?;
        self.cells[at] = value;
        self.registers.push(value)?;
        Ok(Flow::Next)
    }

    // Copies cells from the address on top to the address below it.
    pub(crate) fn copy(&mut self, size: u32) -> Result<Flow, Fault>
        ensures { Carried H.Host (effect (Copy size)) self.old result self.new }
    {
        let source = self.registers.pop()?;
        let target = self.registers.pop()?;
        let from = self.place(i64::from(source), size)?;
        let to = self.place(i64::from(target), size)?;
        copy(self.cells, to, from, size);
        Ok(Flow::Next)
    }

    // Makes cells of a level's frame 0.
    pub(crate) fn clear(&mut self, level: u8, start: u32, size: u32) -> Result<Flow, Fault>
        ensures { Carried H.Host (effect (Zero level start size)) self.old result self.new }
    {
        let base = self.registers.base(level);
        let at = self.place(i64::from(base.number()) + i64::from(start), size)?;
        clear(self.cells, at, size);
        Ok(Flow::Next)
    }
}
