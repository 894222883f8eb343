// Why a tree is refused by its depth or by its names.
ghost use Rattle.std.specs.Prelude.{◌≡◌};
ghost use Rattle.checks.specs.declared.faults.CheckFault.TheVariants.{Depth, Names};
ghost use Rattle.checks.specs.Numbers.{depth_number, name_number};

use tiny::placed::Placed;

#[derive(Clone, Copy, PartialEq, Eq, Debug)]
pub enum DepthCause {
    // A node is deeper than 96.
    Node,
    // A procedure is nested deeper than 8.
    Procedure,
}

pub type DepthFault = Placed<DepthCause>;

impl DepthCause {
    // The refusal's number in the list of refusals.
    pub fn number(self) -> u8
        ensures { result ≡ depth_number self }
    {
        match self {
            DepthCause::Node => 7,
            DepthCause::Procedure => 7,
        }
    }
}

#[derive(Clone, Copy, PartialEq, Eq, Debug)]
pub enum NameCause {
    // A name that is used is not declared.
    Undeclared,
    // Its scope has the name already, or its struct the field.
    Twice,
}

pub type NameFault = Placed<NameCause>;

impl NameCause {
    // The refusal's number in the list of refusals.
    pub fn number(self) -> u8
        ensures { result ≡ name_number self }
    {
        match self {
            NameCause::Undeclared => 8,
            NameCause::Twice => 9,
        }
    }
}

// Why a tree is refused by one of the two.
#[derive(Clone, Copy)]
pub enum CheckFault {
    Depth(DepthFault),
    Names(NameFault),
}

impl From<Placed<DepthCause>> for CheckFault {
    ghost from_gives = { λ x y. y ≡ Depth x };

    fn from(value: Placed<DepthCause>) -> Self {
        CheckFault::Depth(value)
    }
}

impl From<Placed<NameCause>> for CheckFault {
    ghost from_gives = { λ x y. y ≡ Names x };

    fn from(value: Placed<NameCause>) -> Self {
        CheckFault::Names(value)
    }
}
