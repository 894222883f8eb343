// Instructions are read from bytes.
ghost use Rattle.std.specs.Prelude.{◌≡◌, ◌≤◌};
ghost use Rattle.std.specs.Iterator.{YieldsFirst, item_count};
ghost use Rattle.shelves.specs.Groups.{answer_of};
ghost use Rattle.shelves.specs.Bytes.{decoded, instruction_first, number_first, operands_first};

use crate::groups::read_groups;
use crate::parts::{Parts, arity};
use machine::instruction::Instruction;

// The number that stands first in the bytes, and the bytes after it; none where no number of 32 bits stands there.
fn read_number(bytes: &[u8]) -> Option<(u32, &[u8])>
    ensures { answer_of result ≡ number_first bytes.now }
{
    let (number, rest) = read_groups(bytes, 5)?;
    let number = u32::try_from(number).ok()?;
    Some((number, rest))
}

// So many operands, the others 0, and the bytes after them; none where one of them does not stand there.
fn read_operands(bytes: &[u8], count: usize) -> Option<([u32; 3], &[u8])>
    requires { count ≤ 3 }
    ensures { answer_of result ≡ operands_first count bytes.now }
{
    let mut operands = [0; 3];
    let mut rest = bytes;
    for operand in &mut operands[..count] {
        let (number, after) = read_number(rest)?;
        *operand = number;
        rest = after;
    }
    Some((operands, rest))
}

// The lawful instruction that stands first in the bytes, and the bytes after it; none where none stands there.
fn read_instruction(bytes: &[u8]) -> Option<(Instruction, &[u8])>
    ensures { answer_of result ≡ instruction_first bytes.now }
{
    let (&code, rest) = bytes.split_first()?;
    let (operands, rest) = read_operands(rest, arity(code))?;
    let parts = Parts { code, operands };
    let instruction = Instruction::try_from(parts).ok()?;
    instruction.is_lawful().then_some((instruction, rest))
}

// The instructions whose bytes these are, one after the other.
#[derive(Drop)]
pub(crate) struct Instructions<'a> {
    pub(crate) bytes: &'a [u8],
}

impl Iterator for Instructions<'_> {
    type Item = Instruction;

    ghost next_gives = { YieldsFirst (λ s. decoded s.bytes.now) };

    ghost remaining = { item_count (λ s. decoded s.bytes.now) };

    fn next(&mut self) -> Option<Instruction> {
        let (instruction, rest) = read_instruction(self.bytes)?;
        self.bytes = rest;
        Some(instruction)
    }
}
