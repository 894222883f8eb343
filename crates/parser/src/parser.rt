// A source on its way into a table: the next token, the scanner behind it, and the records so far.
ghost use Rattle.std.specs.Prelude.{◌≡◌, ◌+◌, ◌≤◌, true, length};
ghost use Rattle.tiny.specs.Scan.{left_of};
ghost use Rattle.tables.specs.Items.{items, capacity};
ghost use Rattle.parser.specs.Rest.{scanned, tokens_of};

use nodes::node::Node;
use tables::table::Table;
use tiny::scanner::Scanner;
use tiny::tokens::Token;

pub mod adding;
pub mod reading;

// What is behind the next token scans, and the table has room for a record of each token ahead.
#[derive(Drop)]
pub struct Parser<'s, 't, 'c> {
    pub(crate) scanner: Scanner<'s>,
    pub(crate) next: Option<Token>,
    pub(crate) nodes: &'t mut Table<'c, Node>,
    ghost sound: { scanned (left_of scanner.read scanner.source.now scanner.at) ≡ true },
    ghost room: { length (items nodes.now) + length (tokens_of scanner.source.now next (left_of scanner.read scanner.source.now scanner.at)) ≤ capacity nodes.now },
}
