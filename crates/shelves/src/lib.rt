// Shelves for code over lent slices: records, and bytes.
#![tactic(auto)]

pub mod byte_shelf;
mod groups;
mod parts;
mod reading;
pub mod record;
mod writing;
