// Why a source is refused before it is parsed.
ghost use Rattle.std.specs.Prelude.{◌≡◌};
ghost use Rattle.tiny.specs.Refusals.{scan_number};
ghost use Rattle.tiny.specs.Words.{cause_words};

use crate::placed::Placed;
use std::error::Error;
use std::fmt;

#[derive(Clone, Copy, PartialEq, Eq, Debug)]
pub enum ScanCause {
    // The source is longer than 16,384 bytes.
    TooLong,
    // No token begins with this byte.
    NoToken,
    // The literal is outside int.
    TooLarge,
    // There are 2,048 tokens before this one.
    TooMany,
}

pub type ScanFault = Placed<ScanCause>;

impl ScanCause {
    // The fault that stands at a place.
    pub fn at(self, place: usize) -> ScanFault
        ensures { result ≡ record { what = self; place = place } }
    {
        Placed { what: self, place }
    }

    // The refusal's number in the list of refusals.
    pub fn number(self) -> u8
        ensures { result ≡ scan_number self }
    {
        match self {
            ScanCause::TooLong => 2,
            ScanCause::NoToken => 3,
            ScanCause::TooLarge => 4,
            ScanCause::TooMany => 5,
        }
    }

    // What the refusal means.
    pub fn words(self) -> &'static str
        ensures { result.now ≡ cause_words self }
    {
        match self {
            ScanCause::TooLong => "the source is longer than 16384 bytes",
            ScanCause::NoToken => "no token begins with this byte",
            ScanCause::TooLarge => "this literal is outside int, -2147483648 to 2147483647",
            ScanCause::TooMany => "this is the 2049th token, and 2048 are the most",
        }
    }
}

// What the refusal means.
impl fmt::Display for ScanCause {
    ghost use Rattle.std.specs.Prelude.{Some};
    ghost use Rattle.tiny.specs.Words.{cause_words};

    ghost output = { λ cause. Some (cause_words cause) };

    fn fmt<W: fmt::Write>(&self, f: &mut fmt::Formatter<W>) -> fmt::Result {
        f.write_str(self.words())
    }
}

impl Error for ScanCause {}
