// The scanner: the longest token wins. A token is a stretch of the source with its place.
ghost use Rattle.std.specs.Prelude.{◌≡◌, ◌-◌, ◌≤◌, false, length, drop};
ghost use Rattle.tiny.specs.Automaton.{skip, hash};
ghost use Rattle.tiny.specs.Automaton;
ghost use Rattle.tiny.specs.Scan.{lexed, EndsWithin, scan, left_of, counted, next_token, Takes, Counts, Moves};

use crate::faults::{ScanCause, ScanFault};
use crate::placed::Placed;
use crate::states::{Stretch, munch};
use crate::text::{is_blank, meaning};
use crate::tokens::{Lexeme, Token};

// A longer source is refused.
pub const MOST_BYTES: usize = 16384;

// A source of more tokens is refused.
pub const MOST_TOKENS: usize = 2048;

// How many bytes at the front are ignored: blanks, and comments from `##` to the end of the line.
#[tactic(auto, using(crate::proofs::Reach::ignored_more, crate::proofs::Reach::ignored_no_more))]
fn ignored(bytes: &[u8]) -> usize
    ensures skipped { result ≡ skip false bytes.now }
    ensures within { result ≤ length bytes.now }
{
    let mut comment = false;
    for (n, b) in bytes.iter().enumerate() {
        let Some(next) = ignore(comment, *b, hash_at(bytes, n + 1)) else {
            return n;
        };
        comment = next;
    }
    bytes.len()
}

// Whether a byte is ignored: if so, whether a comment goes on behind it.
fn ignore(comment: bool, b: u8, before_hash: bool) -> Option<bool>
    ensures { result ≡ Automaton.ignore comment b before_hash }
{
    if comment {
        Some(b != b'\n')
    } else if b == b'#' && before_hash {
        Some(true)
    } else if is_blank(b) {
        Some(false)
    } else {
        None
    }
}

fn hash_at(bytes: &[u8], at: usize) -> bool
    ensures { result ≡ hash (drop at bytes.now) }
{
    bytes.get(at) == Some(&b'#')
}

// The token behind what is ignored, none at the end, or why there is none.
fn lex(source: &[u8], at: usize) -> Result<Option<Stretch>, ScanFault>
    requires { at ≤ length source.now }
    ensures token { result ≡ lexed source.now at }
    ensures within { EndsWithin (length source.now) result }
{
    let place = at + ignored(&source[at..]);
    if place >= source.len() {
        return Ok(None);
    }
    let (len, state) = munch(&source[place..]);
    let end = place + len;
    let text = &source[place..end];
    let Some(kind) = state.kind(text) else {
        return Err(ScanCause::NoToken.at(place));
    };
    Ok(Some(Stretch {
        kind,
        place,
        end,
        value: meaning(kind, text),
    }))
}

// A source, and how far it is scanned: the next byte, and how many tokens were read.
#[derive(Drop)]
pub struct Scanner<'a> {
    source: &'a [u8],
    at: usize,
    read: usize,
    ghost within: { at ≤ length source.now },
    ghost few: { read ≤ 2048 },
}

impl<'a> Scanner<'a> {
    pub fn new(source: &'a [u8]) -> Scanner<'a>
        ensures source { result.source.now ≡ source.now }
        ensures at { result.at ≡ 0 }
        ensures read { result.read ≡ 0 }
    {
        Scanner {
            source,
            at: 0,
            read: 0,
        }
    }

    // The token ahead, none at the end, or why there is none.
    fn ahead(&self) -> Result<Option<Token>, ScanFault>
        ensures { result ≡ next_token (2048 - self.now.read) self.now.source.now self.now.at }
    {
        let Some(stretch) = lex(self.source, self.at)? else {
            return Ok(None);
        };
        let place = stretch.place;
        if self.read == MOST_TOKENS {
            return Err(ScanCause::TooMany.at(place));
        }
        let value = stretch.value.ok_or(ScanCause::TooLarge.at(place))?;
        let what = Lexeme {
            kind: stretch.kind,
            end: stretch.end,
            value,
        };
        Ok(Some(Placed { what, place }))
    }

    // The next token, none at the end, or why there is none. After a refusal the scanner stays
    // where it was.
    pub fn next(&mut self) -> Result<Option<Token>, ScanFault>
        ensures source { self.new.source ≡ self.old.source }
        ensures token { result ≡ next_token (2048 - self.old.read) self.old.source.now self.old.at }
        ensures left { Takes self.old.source.now (left_of self.old.read self.old.source.now self.old.at) result (left_of self.new.read self.new.source.now self.new.at) }
        ensures read { Counts self.old.read result self.new.read }
        ensures at { Moves self.old.at result (length self.old.source.now) self.new.at }
    {
        let ahead = self.ahead()?;
        match ahead {
            Some(token) => {
                self.at = token.what.end;
                self.read += 1;
            }
            None => self.at = self.source.len(),
        }
        Ok(ahead)
    }
}

// The number of tokens of a source, or why it is refused.
pub fn count_tokens(source: &[u8]) -> Result<usize, ScanFault>
    ensures { result ≡ counted (scan source.now) }
{
    if source.len() > MOST_BYTES {
        return Err(ScanCause::TooLong.at(MOST_BYTES));
    }
    let mut scanner = Scanner::new(source);
    while scanner.next()?.is_some() {}
    Ok(scanner.read)
}
