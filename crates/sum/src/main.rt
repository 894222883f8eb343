// Runs the code of a recursive sum over both shelves and both hosts, and prints what it did.
#![tactic(auto)]

ghost use Rattle.std.specs.Prelude.{◌≤◌, length};

mod program;

use hosts::numbers::NumberHost;
use hosts::text_host::TextHost;
use machine::host::Host;
use machine::instruction::Instruction;
use machine::shelf::Shelf;
use program::put_all;
use running::advance::{Progress, advance};
use running::registers::Registers;
use shelves::byte_shelf::ByteShelf;
use shelves::record::RecordShelf;
use std::io;

const BUDGET: u64 = 200;

fn report(rt: &HostRuntime, progress: Progress) -> io::Result<()> {
    let standing = progress.standing;
    let spent = progress.spent;
    println!(rt; "  {standing:?} after {spent} instructions")
}

// A run over some cells and a host.
fn run<S: Shelf, H: Host>(
    rt: &HostRuntime,
    shelf: &S,
    cells: &mut [i32],
    host: &mut H,
) -> io::Result<()>
    requires { length cells.old ≤ 1048576 }
{
    let mut registers = Registers::new();
    let progress = advance(&mut registers, shelf, cells, host, BUDGET);
    report(rt, progress)
}

// Runs over a host of numbers and a host of text, and over too few cells.
fn over_hosts<S: Shelf>(rt: &HostRuntime, shelf: &S) -> io::Result<()> {
    let mut output = [0; 8];
    let mut numbers = NumberHost::new(&[], &mut output);
    run(rt, shelf, &mut [7; 19], &mut numbers)?;
    let written = numbers.output();
    println!(rt; "  numbers {written:?}")?;
    let mut output = [0; 8];
    let mut text = TextHost::new(b"", &mut output);
    run(rt, shelf, &mut [7; 19], &mut text)?;
    let written = text.output();
    println!(rt; "  bytes {written:?}")?;
    let mut output = [0; 8];
    let mut numbers = NumberHost::new(&[], &mut output);
    run(rt, shelf, &mut [7; 18], &mut numbers)
}

fn run_over<S: Shelf>(rt: &HostRuntime, name: &str, shelf: &mut S) -> io::Result<()> {
    if let Err(refusal) = put_all(shelf) {
        return println!(rt; "{name}: {refusal:?}");
    }
    let count = shelf.count();
    println!(rt; "{name}: {count} instructions")?;
    over_hosts(rt, shelf)
}

fn main(rt: HostRuntime) -> io::Result<()> {
    let mut slots = [Instruction::Stop; 47];
    run_over(&rt, "records", &mut RecordShelf::new(&mut slots))?;
    let mut bytes = [0; 128];
    run_over(&rt, "bytes", &mut ByteShelf::new(&mut bytes))?;
    let mut few = [0; 64];
    run_over(&rt, "few bytes", &mut ByteShelf::new(&mut few))
}
