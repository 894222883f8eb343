// The records in which a table keeps a tree, and the subtrees that it shows.
#![tactic(auto)]

pub mod node;
pub mod subtree;
