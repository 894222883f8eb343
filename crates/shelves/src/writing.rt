// Instructions are written to bytes.
ghost use Rattle.std.specs.Prelude.{◌≡◌, ◌≤◌, length, sum_by};
ghost use Rattle.std.specs.List.{flat_map};
ghost use Rattle.tables.specs.Items.{HasRoom, Extended};
ghost use Rattle.shelves.specs.Groups.{groups};
ghost use Rattle.shelves.specs.Bytes.{encoded};

use crate::groups::{group_count, write_groups};
use crate::parts::Parts;
use machine::instruction::Instruction;
use tables::table::Table;

// How many bytes numbers take in groups, one after the other.
fn groups_length(numbers: &[u32]) -> usize
    requires { length numbers.now ≤ 3 }
    ensures { result ≡ sum_by (λ n. length (groups n)) numbers.now }
{
    numbers.iter().map(|n| group_count(*n)).sum()
}

// Adds numbers in groups, one after the other.
fn write_numbers(bytes: &mut Table<u8>, numbers: &[u32])
    requires { HasRoom bytes.old (flat_map groups numbers.now) }
    ensures { Extended bytes.old (flat_map groups numbers.now) bytes.new }
{
    for n in numbers {
        write_groups(bytes, *n);
    }
}

// How many bytes an instruction takes.
pub(crate) fn encoded_length(instruction: Instruction) -> usize
    ensures { result ≡ length (encoded instruction) }
{
    1 + groups_length(Parts::from(instruction).present())
}

// Adds the bytes of an instruction.
pub(crate) fn write_instruction(bytes: &mut Table<u8>, instruction: Instruction)
    requires { HasRoom bytes.old (encoded instruction) }
    ensures { Extended bytes.old (encoded instruction) bytes.new }
{
    let parts = Parts::from(instruction);
    bytes.push(parts.code);
    write_numbers(bytes, parts.present());
}
