// The records of a tree. Each belongs to a token, and names its parts by their numbers.
use tiny::tokens::Token;

#[derive(Clone, Copy)]
pub enum Node {
    // No node.
    Blank,
    Leaf {
        token: Token,
    },
    Under {
        token: Token,
        part: usize,
    },
    Join {
        token: Token,
        left: usize,
        right: usize,
    },
}
