// Why a source is refused by the parser, or by the scanner before it.
ghost use Rattle.std.specs.Prelude.{◌≡◌};
ghost use Rattle.parser.specs.declared.faults.ParseFault.TheVariants.{Scan};
ghost use Rattle.parser.specs.Refusals.{parse_number, parse_place};

use tiny::faults::{ScanCause, ScanFault};
use tiny::placed::Placed;

#[derive(Clone, Copy, PartialEq, Eq, Debug)]
pub enum SyntaxCause {
    // No legal syntax continues with this token, or ends here.
    Unexpected,
}

#[derive(Clone, Copy)]
pub enum ParseFault {
    Scan(ScanFault),
    Syntax(Placed<SyntaxCause>),
    // The table has less room than the source has tokens.
    Full,
}

impl From<Placed<ScanCause>> for ParseFault {
    ghost from_gives = { λ x y. y ≡ Scan x };

    fn from(value: Placed<ScanCause>) -> Self {
        ParseFault::Scan(value)
    }
}

impl ParseFault {
    // The refusal's number in the list of refusals.
    pub fn number(self) -> u8
        ensures { result ≡ parse_number self }
    {
        match self {
            ParseFault::Scan(fault) => fault.what.number(),
            ParseFault::Syntax(_) => 6,
            ParseFault::Full => 1,
        }
    }

    // The place in the source that the refusal names.
    pub fn place(self) -> usize
        ensures { result ≡ parse_place self }
    {
        match self {
            ParseFault::Scan(fault) => fault.place,
            ParseFault::Syntax(fault) => fault.place,
            ParseFault::Full => 0,
        }
    }
}
