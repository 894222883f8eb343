// The parts of a text between blanks, and the item that each is.
ghost use Rattle.std.specs.Prelude.{◌≡◌, ◌≤◌, true, ◌∷◌, [], length, MatchOption};
ghost use Rattle.std.specs.List.{position, prefix_len};
ghost use Rattle.hosts.specs.Parts.{Spelled, are_digits, blank, item_of, literal, numeral, parts};

use machine::host::Unreadable;
use tiny::text::literal;

// Tab, line feed, carriage return and space part the input.
fn is_blank(byte: u8) -> bool
    ensures { result ≡ blank byte }
{
    matches!(byte, b'\t' | b'\n' | b'\r' | b' ')
}

// How many blanks stand first.
fn blanks(bytes: &[u8]) -> usize
    ensures value { result ≡ prefix_len blank bytes.now }
    ensures within { result ≤ length bytes.now }
{
    bytes.iter().take_while(|byte| is_blank(**byte)).count()
}

// Where the first blank stands.
fn first_blank(bytes: &[u8]) -> Option<usize>
    ensures { result ≡ position blank bytes.now }
{
    bytes.iter().position(|byte| is_blank(*byte))
}

// The first part and the bytes after it, or none where only blanks are left.
pub(crate) fn first_part(bytes: &[u8]) -> Option<(&[u8], &[u8])>
    ensures { MatchOption result (parts bytes.now ≡ []) (λ p. parts bytes.now ≡ p.0.now ∷ parts p.1.now) }
{
    let text = &bytes[blanks(bytes)..];
    if text.is_empty() {
        return None;
    }
    let end = first_blank(text).unwrap_or(text.len());
    Some(text.split_at(end))
}

fn all_digits(bytes: &[u8]) -> bool
    ensures { result ≡ are_digits bytes.now }
{
    bytes.iter().all(|byte| byte.is_ascii_digit())
}

// 0, or a digit 1 to 9 and any more digits.
fn is_numeral(bytes: &[u8]) -> bool
    ensures { result ≡ numeral bytes.now }
{
    match bytes {
        [] | [b'0', _, ..] => false,
        _ => all_digits(bytes),
    }
}

// A numeral, with or without a sign before it: a literal, as a source spells it.
fn is_literal(part: &[u8]) -> bool
    ensures test { result ≡ literal part.now }
    ensures tells { (result ≡ true → Spelled part.now) × (Spelled part.now → result ≡ true) }
{
    match part {
        [b'-' | b'+', digits @ ..] => is_numeral(digits),
        _ => is_numeral(part),
    }
}

// The item that a part of the input is.
pub(crate) fn read_item(part: &[u8]) -> Result<i32, Unreadable>
    ensures { result ≡ item_of part.now }
{
    if !is_literal(part) {
        return Err(Unreadable);
    }
    literal(part).ok_or(Unreadable)
}
