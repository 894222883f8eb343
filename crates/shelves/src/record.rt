// A shelf of records: one slot of a lent slice to each instruction.
ghost use Rattle.std.specs.Prelude.{◌≡◌, ℕ, ◌≤◌, min, true, length};
ghost use Rattle.machine.specs.Instructions.{lawful_all};
ghost use Rattle.tables.specs.Items.{items, capacity};

use machine::instruction::Instruction;
use machine::shelf::{MAX_CAPACITY, PutRefusal, Shelf};
use tables::table::Table;

// Code over a lent slice. Each instruction costs 1.
#[derive(Drop)]
pub struct RecordShelf<'a> {
    code: Table<'a, Instruction>,
    ghost within: { length (items code) ≤ 1048576 },
    ghost kept: { lawful_all (items code) ≡ true },
}

impl<'a> RecordShelf<'a> {
    // An empty shelf over the slice.
    pub fn new(slots: &'a mut [Instruction]) -> Self
        ensures { (result.code.used ≡ 0) × (result.code.cells.now ≡ slots.old) }
    {
        RecordShelf {
            code: Table::over(slots),
        }
    }
}

impl<'a> Shelf for RecordShelf<'a> {
    ghost code = { λ s. items s.code };

    ghost capacity = { λ s. min (capacity s.code) 1048576 };

    ghost cost = { λ _ _. 1 };

    fn capacity(&self) -> usize {
        self.code.capacity().min(MAX_CAPACITY)
    }

    fn cost(&self, _instruction: Instruction) -> usize {
        1
    }

    fn put(&mut self, instruction: Instruction) -> Result<(), PutRefusal> {
        if !instruction.is_lawful() {
            return Err(PutRefusal::Unlawful);
        }
        if self.code.len() >= self.capacity() {
            return Err(PutRefusal::Full);
        }
        self.code.push(instruction);
        Ok(())
    }

    fn clear(&mut self) {
        self.code.clear();
    }

    fn fetch(&self, n: usize) -> Option<Instruction> {
        self.code.get(n)
    }

    fn count(&self) -> usize {
        self.code.len()
    }
}
