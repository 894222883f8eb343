// A shelf keeps code: what it means, and what its calls answer.
ghost use Rattle.std.specs.Prelude.{◌≡◌, ℕ, ◌<◌, ◌≤◌, true, List, [], length, IfSome};
ghost use Rattle.machine.specs.declared.instruction.Instruction.{Instruction};
ghost use Rattle.machine.specs.Instructions.{lawful};
ghost use Rattle.machine.specs.Shelves.{Kept, fetched, answered, appended, put_number, put_place};

use crate::instruction::Instruction;

// The greatest capacity that a shelf may have.
pub const MAX_CAPACITY: usize = 1048576;

// Why an instruction was not put.
#[derive(Clone, Copy, PartialEq, Eq, Debug)]
pub enum PutRefusal {
    Unlawful,
    Full,
}

impl PutRefusal {
    // The refusal's number in the list of refusals.
    pub fn number(self) -> u8
        ensures { result ≡ put_number self }
    {
        match self {
            PutRefusal::Unlawful => 16,
            PutRefusal::Full => 15,
        }
    }

    // The place in the source that the refusal names, if it names one.
    pub fn place(self) -> Option<usize>
        ensures { result ≡ put_place self }
    {
        match self {
            PutRefusal::Unlawful => None,
            PutRefusal::Full => Some(0),
        }
    }
}

// A store of code. Its meaning is a list of lawful instructions, a fixed capacity,
// and a fixed cost of 1 to 16 for each lawful instruction.
pub trait Shelf {
    ghost code: { Self → List Instruction };

    ghost capacity: { Self → ℕ };

    ghost cost: { Self → Instruction → ℕ };

    // The capacity. Whatever the shelf has been through, `Kept` holds of its meaning:
    // all of its code is lawful and costs at most the capacity, which is at most 1,048,576.
    fn capacity(&self) -> usize
        ensures value { result ≡ capacity self.now }
        ensures kept { Kept (cost self.now) (capacity self.now) (code self.now) };

    // What one instruction takes of the capacity.
    fn cost(&self, instruction: Instruction) -> usize
        ensures value { result ≡ cost self.now instruction }
        ensures range { lawful instruction ≡ true → (1 ≤ result) × (result ≤ 16) };

    // Appends the instruction if it is lawful and its cost fits what is left; else changes nothing.
    fn put(&mut self, instruction: Instruction) -> Result<(), PutRefusal>
        ensures answer { result ≡ answered (cost self.old) (capacity self.old) (code self.old) instruction }
        ensures after { code self.new ≡ appended (cost self.old) (capacity self.old) (code self.old) instruction }
        ensures fixed { (capacity self.new ≡ capacity self.old) × (cost self.new ≡ cost self.old) };

    // Empties the shelf.
    fn clear(&mut self)
        ensures after { code self.new ≡ [] }
        ensures fixed { (capacity self.new ≡ capacity self.old) × (cost self.new ≡ cost self.old) };

    // Instruction number `n`, a lawful one, or none past the end.
    fn fetch(&self, n: usize) -> Option<Instruction>
        ensures answer { result ≡ fetched (code self.now) n }
        ensures sound { IfSome result (λ i. (lawful i ≡ true) × (n < 1048576)) };

    // How many instructions there are.
    fn count(&self) -> usize
        ensures value { result ≡ length (code self.now) }
        ensures most { result ≤ 1048576 };
}
