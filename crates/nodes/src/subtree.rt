// A record of a table that shows a tree, together with the table.
ghost use Rattle.nodes.specs.Rooted.{Rooted};

use crate::node::Node;
use tiny::tokens::Token;

pub mod parts;

#[derive(Clone, Copy)]
pub struct Subtree<'a> {
    pub nodes: &'a [Node],
    pub at: usize,
    ghost rooted: { ∥ Rooted nodes.now at ∥₁ },
}

// The root of a subtree, with the parts under it.
#[derive(Clone, Copy)]
pub enum Shape<'a> {
    Leaf {
        token: Token,
    },
    Under {
        token: Token,
        part: Subtree<'a>,
    },
    Join {
        token: Token,
        left: Subtree<'a>,
        right: Subtree<'a>,
    },
}
