// The operands of a run.
ghost use Rattle.std.specs.Prelude.{◌≡◌, ◌≤◌, List, [], ℤ, length, reverse, take};
ghost use Rattle.running.specs.Stacks.{Roomy, Pushed, Popped};

use machine::fault::Fault;
use std::marker::Model;

pub const MAX_OPERANDS: usize = 128;

// The operands of a run. Clauses see them as a list, the newest first.
#[derive(Drop)]
pub struct Operands {
    items: [i32; 128],
    depth: usize,
}

impl Model for Operands {
    ghost Value = { List ℤ };

    ghost view = { λ s. reverse (take s.depth s.items) };

    ghost invariant = { λ s. s.depth ≤ 128 };
}

impl Operands {
    // No operands.
    pub fn new() -> Self
        ensures { result ≡ [] }
    {
        Operands {
            items: [0; 128],
            depth: 0,
        }
    }

    // How many there are.
    pub fn len(&self) -> usize
        ensures value { result ≡ length self.now }
        ensures most { result ≤ 128 }
    {
        let many = self.depth;
        many
    }

    // Whether there is room for one operand more; else a fault.
    pub(crate) fn room(&self) -> Result<(), Fault>
        ensures { Roomy self.now result }
    {
        if self.depth < MAX_OPERANDS {
            Ok(())
        } else {
            Err(Fault::Operands)
        }
    }

    // One operand more; a fault and no change where there are 128.
    pub(crate) fn push(&mut self, value: i32) -> Result<(), Fault>
        ensures { Pushed self.old value result self.new }
    {
        self.room()?;
        self.items[self.depth] = value;
        self.depth += 1;
        Ok(())
    }

    // Takes the newest operand away; a fault where there is none.
    pub(crate) fn pop(&mut self) -> Result<i32, Fault>
        ensures { Popped self.old result self.new }
    {
        if self.depth == 0 {
            return Err(Fault::Operands);
        }
        self.depth -= 1;
        Ok(self.items[self.depth])
    }
}
