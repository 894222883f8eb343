// Both checks, one after the other.
ghost use Rattle.std.specs.Prelude.{[], ◌++◌};
ghost use Rattle.meaning.specs.Stages.{deep_block, names_block};
ghost use Rattle.syntax.specs.Shape.{Tree};
ghost use Rattle.syntax.specs.View;
ghost use Rattle.tables.specs.Items.{capacity};
ghost use Rattle.nodes.specs.Subtrees.{Shown};
ghost use Rattle.checks.specs.Breaks.{Tells};
ghost use Rattle.checks.specs.Checked.{check_break};
ghost use Rattle.checks.specs.Declares.{FitsIn};

use crate::binder::check_names;
use crate::depth::check_depth;
use crate::faults::CheckFault;
use crate::names::NameRecord;
use nodes::subtree::Subtree;
use tables::table::Table;

// The first break of depth, or else the first of names, or none. The tree is that of the outermost
// block, as the parser leaves it, and the table of names has a record for each of its nodes.
pub fn check(
    source: &[u8],
    tree: Subtree<'_>,
    table: &mut Table<NameRecord>,
) -> Result<(), CheckFault>
    requires { FitsIn source.now tree 0 (capacity table.old) }
    ensures { (t : Tree) → Shown source.now tree.entry t → Tells check_break result (deep_block (View.block t) 1 0 ++ names_block (View.block t) []) }
{
    check_depth(tree)?;
    check_names(source, tree, table)?;
    Ok(())
}
