// The scanner's automaton: the bytes of a token, one after the other.
ghost use Rattle.std.specs.Prelude.{◌≡◌, ◌≤◌, length};
ghost use Rattle.tiny.specs.Automaton.{step, reach, numeral, begin, kind};
ghost use Rattle.tiny.specs.Automaton;

use crate::text::{is_letter, word_kind};
use crate::tokens::Kind;

// How far into a token the scanner is.
#[derive(Clone, Copy)]
pub enum State {
    Start,
    Word,
    Zero,
    Digits,
    // A sign, which may begin a literal.
    Sign(Kind),
    // A symbol, and what it is with a `=` behind it.
    Order(Kind, Kind),
    Bang,
    Amp,
    Whole(Kind),
}

impl State {
    // The token that a text is which ends here.
    pub(crate) fn kind(self, text: &[u8]) -> Option<Kind>
        ensures { result ≡ kind self text.now }
    {
        match self {
            State::Start | State::Bang => None,
            State::Word => Some(word_kind(text)),
            State::Zero | State::Digits => Some(Kind::Literal),
            State::Sign(kind) | State::Order(kind, _) | State::Whole(kind) => Some(kind),
            State::Amp => Some(Kind::Ampersand),
        }
    }

    // The state one byte on, if the byte goes on with the token.
    fn step(self, b: u8) -> Option<State>
        ensures { result ≡ step self b }
    {
        match self {
            State::Start => begin(b),
            State::Word => (is_letter(b) || b.is_ascii_digit()).then_some(State::Word),
            State::Digits => b.is_ascii_digit().then_some(State::Digits),
            State::Sign(_) => numeral(b),
            State::Order(_, both) => followed(b, b'=', both),
            State::Bang => followed(b, b'=', Kind::NotEqual),
            State::Amp => followed(b, b'&', Kind::DoubleAmpersand),
            State::Zero | State::Whole(_) => None,
        }
    }
}

// The second byte of a symbol.
fn followed(b: u8, second: u8, both: Kind) -> Option<State>
    ensures { result ≡ Automaton.followed b second both }
{
    (b == second).then_some(State::Whole(both))
}

// The digits of a literal begin with 0, which is then all of it, or with another digit.
fn numeral(b: u8) -> Option<State>
    ensures { result ≡ numeral b }
{
    match b {
        b'0' => Some(State::Zero),
        b'1'..=b'9' => Some(State::Digits),
        _ => None,
    }
}

// The state after the first byte of a token.
fn begin(b: u8) -> Option<State>
    ensures { result ≡ begin b }
{
    if is_letter(b) {
        Some(State::Word)
    } else if b.is_ascii_digit() {
        numeral(b)
    } else {
        mark(b)
    }
}

// The state after the first byte of a symbol.
fn mark(b: u8) -> Option<State>
    ensures { result ≡ Automaton.mark Automaton.marks b }
{
    match b {
        b'+' => Some(State::Sign(Kind::Plus)),
        b'-' => Some(State::Sign(Kind::Minus)),
        b'<' => Some(State::Order(Kind::Less, Kind::LessEqual)),
        b'>' => Some(State::Order(Kind::Greater, Kind::GreaterEqual)),
        b'=' => Some(State::Order(Kind::Becomes, Kind::Equal)),
        b'!' => Some(State::Bang),
        b'&' => Some(State::Amp),
        b'*' => Some(State::Whole(Kind::Times)),
        b'/' => Some(State::Whole(Kind::Over)),
        b'%' => Some(State::Whole(Kind::Percent)),
        b'(' => Some(State::Whole(Kind::Open)),
        b')' => Some(State::Whole(Kind::Close)),
        b';' => Some(State::Whole(Kind::Semicolon)),
        b'[' => Some(State::Whole(Kind::Index)),
        b']' => Some(State::Whole(Kind::IndexEnd)),
        b'.' => Some(State::Whole(Kind::Dot)),
        b'^' => Some(State::Whole(Kind::Caret)),
        b',' => Some(State::Whole(Kind::Comma)),
        b'{' => Some(State::Whole(Kind::Brace)),
        b'}' => Some(State::Whole(Kind::BraceEnd)),
        b'@' => Some(State::Whole(Kind::At)),
        _ => None,
    }
}

// How many bytes at the front go into one token, and the state behind them.
#[tactic(auto, using(crate::proofs::Reach::one_more, crate::proofs::Reach::no_more))]
pub(crate) fn munch(bytes: &[u8]) -> (usize, State)
    ensures reached { result ≡ reach State.Start bytes.now }
    ensures within { result.0 ≤ length bytes.now }
{
    let mut state = State::Start;
    for (n, b) in bytes.iter().enumerate() {
        let Some(next) = state.step(*b) else {
            return (n, state);
        };
        state = next;
    }
    (bytes.len(), state)
}

// A token of a kind from its place to its end. A literal outside int has no value, and what is no
// literal the value 0.
#[derive(Clone, Copy)]
pub struct Stretch {
    pub kind: Kind,
    pub place: usize,
    pub end: usize,
    pub value: Option<i32>,
}
