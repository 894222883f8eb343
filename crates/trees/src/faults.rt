// Why a source has no tree, or one that is too deep.
ghost use Rattle.std.specs.Prelude.{◌≡◌};
ghost use Rattle.trees.specs.Numbers.{tree_number, tree_place};
ghost use Rattle.trees.specs.declared.faults.TreeFault.TheVariants.{Parse, Depth};

use checks::faults::DepthCause;
use parser::faults::ParseFault;
use tiny::placed::Placed;

#[derive(Clone, Copy)]
pub enum TreeFault {
    Parse(ParseFault),
    Depth(Placed<DepthCause>),
}

impl From<ParseFault> for TreeFault {
    ghost from_gives = { λ x y. y ≡ Parse x };

    fn from(value: ParseFault) -> Self {
        TreeFault::Parse(value)
    }
}

impl From<Placed<DepthCause>> for TreeFault {
    ghost from_gives = { λ x y. y ≡ Depth x };

    fn from(value: Placed<DepthCause>) -> Self {
        TreeFault::Depth(value)
    }
}

impl TreeFault {
    // The refusal's number in the list of refusals.
    pub fn number(self) -> u8
        ensures { result ≡ tree_number self }
    {
        match self {
            TreeFault::Parse(fault) => fault.number(),
            TreeFault::Depth(fault) => fault.what.number(),
        }
    }

    // The place in the source that the refusal names.
    pub fn place(self) -> usize
        ensures { result ≡ tree_place self }
    {
        match self {
            TreeFault::Parse(fault) => fault.place(),
            TreeFault::Depth(fault) => fault.place,
        }
    }
}
