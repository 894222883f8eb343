// The machine that runs the code of rules: its instructions and faults, the shelf that keeps code,
// and the host that reads and writes.
#![tactic(auto)]

pub mod fault;
pub mod host;
pub mod instruction;
pub mod shelf;
