// Parses each line of a file as a rule of its own, then some rules that nest as deep as they can, and
// prints what becomes of each.
#![tactic(auto)]

use nodes::node::Node;
use parser::faults::ParseFault;
use parser::parse::parse;
use std::alloc::{AllocError, Global};
use std::{fs, io};
use tables::table::Table;

// What the parser answers: the root of a tree, or a refusal.
fn ask(source: &[u8], cells: &mut [Node]) -> Result<usize, ParseFault> {
    parse(source, &mut Table::over(cells))
}

// The head of a rule, a part, and how often the part stands behind: 2,048 tokens.
const NESTED: [(&str, &str, usize, &str); 5] = [
    ("{@", "(", 2046, "2046 parentheses"),
    ("", "{", 2048, "2048 braces"),
    ("{@", "-", 2046, "2046 signs"),
    ("{@x", "[x", 1022, "1022 brackets"),
    ("{", "if x{", 682, "682 conditions"),
];

// A source: the head, and then the part again and again.
fn nested(heap: Global, head: &str, part: &str, times: usize) -> Result<String, AllocError> {
    format!(in heap; "{head}{}", part.repeat(heap, times)?)
}

fn tell(rt: &HostRuntime, answer: Result<usize, ParseFault>, name: &str) -> io::Result<()> {
    match answer {
        Ok(_root) => println!(rt; "accepted   {name}"),
        Err(fault) => println!(rt; "{} at {:<4}  {name}", fault.number(), fault.place()),
    }
}

fn main(rt: HostRuntime) -> io::Result<()> {
    let heap = rt.alloc();
    let text = fs::read_to_string(&rt, "sources.txt")?;
    let mut cells = vec![in heap; Node::Blank; 2048]?;
    for line in text.as_str().lines() {
        tell(&rt, ask(line.as_bytes(), cells.as_mut_slice()), line)?;
    }
    for (head, part, times, name) in NESTED {
        let source = nested(heap, head, part, times)?;
        tell(&rt, ask(source.as_bytes(), cells.as_mut_slice()), name)?;
    }
    Ok(())
}
