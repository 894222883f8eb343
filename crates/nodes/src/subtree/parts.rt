// Subtrees, from the whole tree down.
ghost use Rattle.std.specs.Prelude.{◌≡◌, ℕ, ◌≤◌, List, if◌then◌else◌};
ghost use Rattle.syntax.specs.Shape.{Tree};
ghost use Rattle.syntax.specs.View;
ghost use Rattle.nodes.specs.Rooted.{Rooted};
ghost use Rattle.nodes.specs.Subtrees.{Shown, Shaped, PartsWithin, BeginsWith, LeadsTo};

use crate::node::Node;
use crate::subtree::{Shape, Subtree};
use tiny::tokens::{Kind, Token};

impl<'a> Subtree<'a> {
    // The tree whose root is a record of the table.
    pub fn new(nodes: &'a [Node], root: usize) -> Self
        requires { Rooted nodes.now root }
        ensures nodes { result.nodes.now ≡ nodes.now }
        ensures root { result.at ≡ root }
    {
        Subtree { nodes, at: root }
    }

    // Its root, and its parts.
    pub fn shape(self) -> Shape<'a>
        ensures shown { (source : List ℕ) (t : Tree) → Shown source self.entry t → Shaped source result t }
        ensures parts { PartsWithin self.entry result }
    {
        let nodes = self.nodes;
        match nodes[self.at] {
            Node::Blank => unreachable!(),
            Node::Leaf { token } => Shape::Leaf { token },
            Node::Under { token, part } => Shape::Under {
                token,
                part: Subtree { nodes, at: part },
            },
            Node::Join { token, left, right } => Shape::Join {
                token,
                left: Subtree { nodes, at: left },
                right: Subtree { nodes, at: right },
            },
        }
    }

    // The token of its root.
    pub fn token(self) -> Token
        ensures { BeginsWith self.entry result }
    {
        match self.shape() {
            Shape::Leaf { token } | Shape::Under { token, .. } | Shape::Join { token, .. } => token,
        }
    }

    // What stands under a declared name: its type, or a procedure's formals.
    pub fn part(self) -> Self
        ensures leads { LeadsTo self.entry result View.part_of }
        ensures before { result.at ≤ self.entry.at }
    {
        match self.shape() {
            Shape::Leaf { .. } => self,
            Shape::Under { part, .. } => part,
            Shape::Join { left, .. } => left,
        }
    }

    // The type of a formal, which may stand under the mark of a reference.
    pub fn formal_type(self) -> Self
        ensures leads { LeadsTo self.entry result (λ t. (if View.by_reference t then View.part_of t else t)) }
        ensures before { result.at ≤ self.entry.at }
    {
        match self.shape() {
            Shape::Under { token, part } if token.what.kind == Kind::Ampersand => part,
            _ => self,
        }
    }
}
