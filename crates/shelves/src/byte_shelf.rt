// A shelf of bytes: each instruction in its byte form.
ghost use Rattle.std.specs.Prelude.{◌≡◌, ℕ, ◌≤◌, min, true, List, [], length};
ghost use Rattle.machine.specs.declared.instruction.Instruction.{Instruction};
ghost use Rattle.machine.specs.Instructions.{lawful_all};
ghost use Rattle.tables.specs.Items.{items, capacity};
ghost use Rattle.shelves.specs.Bytes.{byte_cost, decoded, encoded_all};

use crate::reading::Instructions;
use crate::writing::{encoded_length, write_instruction};
use machine::instruction::Instruction;
use machine::shelf::{MAX_CAPACITY, PutRefusal, Shelf};
use tables::table::Table;

// Code over lent bytes, as many to an instruction as it takes.
#[derive(Drop)]
pub struct ByteShelf<'a> {
    bytes: Table<'a, u8>,
    count: usize,
    ghost within: { length (items bytes) ≤ 1048576 },
    ghost sound: { encoded_all (decoded (items bytes)) ≡ items bytes },
    ghost counted: { count ≡ length (decoded (items bytes)) },
}

impl<'a> ByteShelf<'a> {
    // An empty shelf over the bytes.
    pub fn new(bytes: &'a mut [u8]) -> Self
        ensures over { result.bytes.cells.now ≡ bytes.old }
        ensures empty { decoded (items result.bytes) ≡ [] }
    {
        ByteShelf {
            bytes: Table::over(bytes),
            count: 0,
        }
    }

    // The bytes of the code, one instruction after the other. No other lawful code has the same.
    pub fn bytes(&self) -> &[u8]
        ensures whole { result.now ≡ encoded_all (decoded (items self.now.bytes)) }
        ensures only { (is : List Instruction) → lawful_all is ≡ true → encoded_all is ≡ result.now → is ≡ decoded result.now }
    {
        self.bytes.as_slice()
    }
}

impl<'a> Shelf for ByteShelf<'a> {
    ghost code = { λ s. decoded (items s.bytes) };

    ghost capacity = { λ s. min (capacity s.bytes) 1048576 };

    ghost cost = { λ _. byte_cost };

    fn capacity(&self) -> usize {
        self.bytes.capacity().min(MAX_CAPACITY)
    }

    fn cost(&self, instruction: Instruction) -> usize {
        encoded_length(instruction)
    }

    fn put(&mut self, instruction: Instruction) -> Result<(), PutRefusal> {
        if !instruction.is_lawful() {
            return Err(PutRefusal::Unlawful);
        }
        if self.capacity() - self.bytes.len() < encoded_length(instruction) {
            return Err(PutRefusal::Full);
        }
        write_instruction(&mut self.bytes, instruction);
        self.count += 1;
        Ok(())
    }

    fn clear(&mut self) {
        self.bytes.clear();
        self.count = 0;
    }

    // Past the end nothing is read.
    fn fetch(&self, n: usize) -> Option<Instruction> {
        if n >= self.count {
            return None;
        }
        Instructions {
            bytes: self.bytes.as_slice(),
        }
        .nth(n)
    }

    fn count(&self) -> usize {
        self.count
    }
}
