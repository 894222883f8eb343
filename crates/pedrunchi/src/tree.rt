// `pedrunchi tree`: the tree of a source, a node to a line, its parts indented below it.
use crate::Ended;
use crate::show::Listing;
use nodes::node::Node;
use nodes::subtree::{Shape, Subtree};
use std::io;
use tables::table::Table;
use tiny::tokens::{Kind, Token};
use trees::read_tree;

// How many records a table has.
const RECORDS: usize = 2048;

impl Listing<'_> {
    // The tree of the source, or the first refusal.
    pub fn tree(self) -> Result<(), Ended> {
        let mut cells = vec![in self.rt.alloc(); Node::Blank; RECORDS]?;
        let mut nodes = Table::over(cells.as_mut_slice());
        match read_tree(self.source, &mut nodes) {
            Ok(root) => {
                self.branch(Subtree::new(nodes.as_slice(), root), 0)?;
                println!(self.rt; "{} records", nodes.len())?;
                Ok(())
            }
            Err(fault) => {
                self.refusal(fault)?;
                Err(Ended::Refused)
            }
        }
    }

    // A node and its parts. Separators and brackets of lists have no line of their own.
    fn branch(self, tree: Subtree<'_>, depth: usize) -> io::Result<()> {
        match tree.shape() {
            Shape::Leaf { token } => self.node_row(token, depth),
            Shape::Under { token, part } => {
                let below = self.head(token, depth)?;
                self.branch(part, below)
            }
            Shape::Join { token, left, right } => {
                let below = self.head(token, depth)?;
                self.branch(left, below)?;
                self.branch(right, below)
            }
        }
    }

    // The line of a node that has parts, and how deep its parts are.
    fn head(self, token: Token, depth: usize) -> io::Result<usize> {
        if links(token.what.kind) {
            return Ok(depth);
        }
        self.node_row(token, depth)?;
        Ok(depth.saturating_add(1))
    }

    fn node_row(self, token: Token, depth: usize) -> io::Result<()> {
        let indent = depth.saturating_mul(2);
        print!(self.rt; "{:>5}  {:indent$}", token.place, "")?;
        self.token(token)
    }
}

// Whether a token only holds a list together.
fn links(kind: Kind) -> bool {
    matches!(
        kind,
        Kind::Semicolon
            | Kind::Comma
            | Kind::DoubleAmpersand
            | Kind::Open
            | Kind::ElseWord
            | Kind::Ampersand
    )
}
