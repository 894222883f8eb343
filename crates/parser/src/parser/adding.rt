// Records are added, each paid for by a token that was taken.
ghost use Rattle.parser.specs.Ahead.{Added, Spare};

use crate::parser::Parser;
use nodes::node::Node;

impl Parser<'_, '_, '_> {
    // A token with its parts, which are records already.
    pub fn add(&mut self, node: Node) -> usize
        requires { Spare self.old }
        ensures { Added self.old node result self.new }
    {
        self.nodes.push(node)
    }
}
