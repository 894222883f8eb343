// Letters, words, blanks and numbers, as the source spells them.
ghost use Rattle.std.specs.Prelude.{◌≡◌, ◌+◌, ◌-◌, ◌*◌, min};
ghost use Rattle.std.specs.Str.{str_to_ascii_lowercase};
ghost use Rattle.tiny.specs.Spelling.{letter, lower, words, number, value, blank, ranged, meaning};
ghost use Rattle.tiny.specs.Automaton;

use crate::tokens::Kind;

pub(crate) fn is_letter(b: u8) -> bool
    ensures { result ≡ letter b }
{
    b.is_ascii_alphabetic() || b == b'_'
}

// Whether a text is the word, whatever its letter case.
fn same(text: &[u8], word: &[u8]) -> bool
    ensures { result ≡ Automaton.same text.now (str_to_ascii_lowercase word.now) }
{
    text.eq_ignore_ascii_case(word)
}

// The kind of the first of some words that a text is, or else what stands last: a chain of
// comparisons, each with a word that is known where it is compiled.
macro_rules! first_word {
    ($text:expr; $($word:literal => $kind:ident,)* _ => $other:expr) => {
        $(if same($text, $word) { Kind::$kind } else)* { $other }
    };
}

// The kind of a word: a reserved word or a name.
pub(crate) fn word_kind(text: &[u8]) -> Kind
    ensures { result ≡ Automaton.word_kind words text.now }
{
    first_word! { text;
        b"int" => IntWord,
        b"real" => RealWord,
        b"bool" => BoolWord,
        b"string" => StringWord,
        b"struct" => StructWord,
        b"and" => And,
        b"or" => Or,
        b"not" => Not,
        b"null" => NullWord,
        b"true" => TrueWord,
        b"false" => FalseWord,
        b"proc" => ProcWord,
        b"if" => IfWord,
        b"else" => ElseWord,
        b"while" => WhileWord,
        b"new" => NewWord,
        b"delete" => DeleteWord,
        b"read" => ReadWord,
        b"write" => WriteWord,
        b"nl" => NlWord,
        b"type" => TypeWord,
        b"call" => CallWord,
        _ => Kind::Name
    }
}

pub(crate) fn is_blank(b: u8) -> bool
    ensures { result ≡ blank b }
{
    matches!(b, b' ' | b'\x08' | b'\r' | b'\t' | b'\n')
}

// What digits write, or 2147483649 where it is more.
fn magnitude(digits: &[u8]) -> u32
    ensures { result ≡ min (number 0 digits.now) 2147483649 }
{
    digits.iter().fold(0, |n, d| one_digit(n, *d))
}

fn one_digit(n: u32, d: u8) -> u32
    ensures { result ≡ min (n * 10 + (d - 48)) 2147483649 }
{
    let more = u64::from(n) * 10 + u64::from(d.saturating_sub(b'0'));
    more.min(2147483649) as u32
}

// The value of a literal, none where it is outside int.
pub fn literal(text: &[u8]) -> Option<i32>
    ensures { result ≡ ranged (value text.now) }
{
    let value = match text {
        [b'-', digits @ ..] => -i64::from(magnitude(digits)),
        [b'+', digits @ ..] | digits => i64::from(magnitude(digits)),
    };
    i32::try_from(value).ok()
}

// The value of a token; of what is no literal it is 0.
pub(crate) fn meaning(kind: Kind, text: &[u8]) -> Option<i32>
    ensures { result ≡ meaning kind text.now }
{
    if kind == Kind::Literal {
        literal(text)
    } else {
        Some(0)
    }
}
