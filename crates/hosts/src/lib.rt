// Hosts over lent slices: numbers, and text.
#![tactic(auto)]

pub mod numbers;
mod parts;
mod rendering;
pub mod text_host;
