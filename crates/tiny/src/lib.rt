// The language Tiny: its tokens, the scanner, and the trees of rules.
#![tactic(auto)]

ghost use Rattle.tiny.specs.Examples.{WorkedScans};
ghost use Rattle.tiny.specs.Law.{ScanIs, OneKind};

pub mod faults;
pub mod placed;
pub mod scanner;
pub mod states;
pub mod text;
pub mod tokens;

// The scan is what the spelling of tokens says: each token is the longest of those that begin at its
// place, only what is ignored stands between, and a refusal is the first break. There is one such
// reading of a source, and one kind of a token.
pub fn the_scan_is_the_spelling()
    ensures scan { ScanIs }
    ensures kind { OneKind }
{}

// Short sources and their tokens or refusals.
pub fn worked_scans_stand()
    ensures { WorkedScans }
{}
