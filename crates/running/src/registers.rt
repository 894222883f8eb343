// What a run works with besides memory and host.
ghost use Rattle.std.specs.Prelude.{◌≡◌, List, ℤ, slice_index, slice_set};
ghost use Rattle.machine.specs.Host.{Host};
ghost use Rattle.machine.specs.Machine.{opened};
ghost use Rattle.running.specs.Running.{machine_of};
ghost use Rattle.running.specs.Stacks.{Roomy, Pushed, Popped};

use crate::address::Address;
use crate::bases::Bases;
use crate::operands::Operands;
use machine::fault::Fault;

// The operands, the base of each level's frame, the number of the next instruction,
// and the top of the frames.
#[derive(Drop)]
pub struct Registers {
    pub operands: Operands,
    pub bases: Bases,
    pub next: usize,
    pub top: u32,
}

impl Registers {
    // No operands, and all else 0.
    pub fn new() -> Self
        ensures { (cells : List ℤ) (h : Host) → machine_of result cells h ≡ (opened cells h).machine }
    {
        Registers {
            operands: Operands::new(),
            bases: Bases::new(),
            next: 0,
            top: 0,
        }
    }

    // Whether there is room for one operand more; else a fault.
    pub(crate) fn room(&self) -> Result<(), Fault>
        ensures { Roomy self.now.operands result }
    {
        self.operands.room()
    }

    // One operand more; a fault and no change where there are 128.
    pub(crate) fn push(&mut self, value: i32) -> Result<(), Fault>
        ensures pushed { Pushed self.old.operands value result self.new.operands }
        ensures kept { self.new ≡ record self.old { operands = self.new.operands } }
    {
        self.operands.push(value)
    }

    // Takes the newest operand away; a fault where there is none.
    pub(crate) fn pop(&mut self) -> Result<i32, Fault>
        ensures popped { Popped self.old.operands result self.new.operands }
        ensures kept { self.new ≡ record self.old { operands = self.new.operands } }
    {
        self.operands.pop()
    }

    // The base of a level's frame, 0 where there is no such level.
    pub(crate) fn base(&self, level: u8) -> Address
        ensures { result ≡ slice_index self.now.bases level }
    {
        self.bases.get(level)
    }

    // Puts another base in the place of a level's, if there is such a level.
    pub(crate) fn set_base(&mut self, level: u8, base: Address)
        ensures { self.new ≡ record self.old { bases = slice_set self.old.bases level base } }
    {
        self.bases.set(level, base);
    }
}
