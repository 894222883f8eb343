// A whole source: its tokens are counted, and then its block is parsed.
ghost use Rattle.tiny.specs.Scan.{scan};
ghost use Rattle.parser.specs.Parsing.{Parsed};
ghost use Rattle.parser.specs.Reading.{Programs};

use crate::faults::{ParseFault, SyntaxCause};
use crate::forms::Bracket;
use crate::parser::Parser;
use nodes::node::Node;
use tables::table::Table;
use tiny::placed::Placed;
use tiny::scanner::{Scanner, count_tokens};

// Appends the tree of a source to a table, and answers with the number of its root, or says why the
// source is refused.
pub fn parse(source: &[u8], nodes: &mut Table<Node>) -> Result<usize, ParseFault>
    ensures { Parsed source.now (scan source.now) nodes.old result nodes.new }
{
    let count = count_tokens(source)?;
    if nodes.room() < count {
        return Err(ParseFault::Full);
    }
    let mut scanner = Scanner::new(source);
    let next = scanner.next().unwrap();
    let mut parser = Parser {
        scanner,
        next,
        nodes,
    };
    let read = parser.program();
    let place = parser.place().unwrap_or(source.len());
    read.map_err(|what| ParseFault::Syntax(Placed { what, place }))
}

impl Parser<'_, '_, '_> {
    // A block, with nothing behind it.
    fn program(&mut self) -> Result<usize, SyntaxCause>
        ensures { Programs self.old result self.new }
    {
        let root = self.enclosed(Bracket::Braces)?;
        self.finish()?;
        Ok(root)
    }
}
