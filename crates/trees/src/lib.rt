// From a source to its tree in a table: scanned, parsed, and not too deep.
#![tactic(auto)]

ghost use Rattle.std.specs.Prelude.{◌≡◌};
ghost use Rattle.trees.specs.Trees.{ReadTree};

use checks::depth::check_depth;
use faults::TreeFault;
use nodes::node::Node;
use nodes::subtree::Subtree;
use parser::parse::parse;
use tables::table::Table;

pub mod faults;

// The number of the root of the source's tree, which the table then shows behind what it held; or the
// first refusal.
pub fn read_tree(source: &[u8], nodes: &mut Table<Node>) -> Result<usize, TreeFault>
    ensures { ReadTree source.now nodes.old result nodes.new }
{
    let root = parse(source, nodes)?;
    check_depth(Subtree::new(nodes.as_slice(), root))?;
    Ok(root)
}
