// Files read, and places shown under their line of the source.
use crate::Ended;
use checks::faults::DepthCause;
use parser::faults::ParseFault;
use reports::lines::{Location, locate};
use std::io::Write;
use std::{fmt, fs, io};
use tiny::scanner::MOST_BYTES;
use tiny::tokens::Token;
use trees::faults::TreeFault;

// The bytes of a source file.
pub fn source(rt: &HostRuntime, path: String) -> Result<Vec<u8>, Ended> {
    fs::read(rt, path.as_str()).map_err(|error| Ended::Unread(path, error))
}

// A source, and where what is told of it is printed.
#[derive(Clone, Copy)]
pub struct Listing<'a> {
    pub rt: &'a HostRuntime,
    pub source: &'a [u8],
}

impl<'a> Listing<'a> {
    // The bytes of the source from a place up to another.
    fn stretch(self, start: usize, end: usize) -> &'a [u8] {
        let end = end.min(self.source.len());
        self.source.get(start..end).unwrap_or_default()
    }

    // Bytes of the source as they are, and the end of the line.
    fn line(self, start: usize, end: usize) -> io::Result<()> {
        self.rt.stdout().write_all(self.stretch(start, end))?;
        println!(self.rt; "")
    }

    // The text of a token, and the end of the line.
    pub fn token(self, token: Token) -> io::Result<()> {
        self.line(token.place, token.what.end)
    }

    // The line of a place, and a caret under the place. A tab stays a tab, and the later bytes of a
    // character take no room.
    fn caret(self, place: usize) -> io::Result<()> {
        let Location { start, end, .. } = locate(self.source, place);
        self.line(start, end)?;
        for b in self.stretch(start, place) {
            match *b {
                b'\t' => print!(self.rt; "\t")?,
                0x80..=0xbf => {}
                _ => print!(self.rt; " ")?,
            }
        }
        println!(self.rt; "^")
    }

    // A refusal, and the line of the source. The line of a source that is too long is not shown.
    pub fn refusal(self, fault: TreeFault) -> io::Result<()> {
        let source = self.source;
        println!(self.rt; "{}", Refusal { source, fault })?;
        if source.len() > MOST_BYTES {
            return Ok(());
        }
        self.caret(fault.place())
    }
}

// Why a source has no tree: the refusal's number, what it means, and where it is.
#[derive(Clone, Copy)]
struct Refusal<'a> {
    source: &'a [u8],
    fault: TreeFault,
}

impl Refusal<'_> {
    fn meaning<W: fmt::Write>(&self, f: &mut fmt::Formatter<W>) -> fmt::Result {
        match self.fault {
            TreeFault::Parse(ParseFault::Scan(fault)) => write!(f, "{}", fault.what),
            TreeFault::Parse(ParseFault::Syntax(fault)) => {
                f.write_str(if fault.place < self.source.len() {
                    "no rule goes on with this token"
                } else {
                    "the rule is not finished"
                })
            }
            TreeFault::Parse(ParseFault::Full) => f.write_str("the table for nodes is too small"),
            TreeFault::Depth(fault) => f.write_str(match fault.what {
                DepthCause::Node => "this is nested deeper than 96",
                DepthCause::Procedure => "this procedure is nested deeper than 8",
            }),
        }
    }
}

impl fmt::Display for Refusal<'_> {
    fn fmt<W: fmt::Write>(&self, f: &mut fmt::Formatter<W>) -> fmt::Result {
        let number = self.fault.number();
        let place = self.fault.place();
        let Location { line, column, .. } = locate(self.source, place);
        write!(f, "refused, number {number}: ")?;
        self.meaning(f)?;
        write!(f, "\nat place {place}, line {line}, column {column}")
    }
}
