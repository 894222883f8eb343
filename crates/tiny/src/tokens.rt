// The kinds of tokens, and tokens as stretches of the source.
ghost use Rattle.std.specs.Prelude.{◌≡◌};
ghost use Rattle.tiny.specs.Token.{code, class};
ghost use Rattle.tiny.specs.Words.{class_words};

use crate::placed::Placed;
use std::fmt;

#[derive(Clone, Copy, PartialEq, Eq, Debug)]
pub enum Kind {
    Name,
    Literal,
    // reserved words
    TrueWord,
    FalseWord,
    IntWord,
    BoolWord,
    StructWord,
    TypeWord,
    ProcWord,
    IfWord,
    ElseWord,
    WhileWord,
    ReadWord,
    WriteWord,
    NlWord,
    CallWord,
    And,
    Or,
    Not,
    // reserved words of no rule
    RealWord,
    StringWord,
    NullWord,
    NewWord,
    DeleteWord,
    // + - * / %
    Plus,
    Minus,
    Times,
    Over,
    Percent,
    // < > <= >= == !=
    Less,
    Greater,
    LessEqual,
    GreaterEqual,
    Equal,
    NotEqual,
    // ( ) ; = [ ] . ^ , { } & && @
    Open,
    Close,
    Semicolon,
    Becomes,
    Index,
    IndexEnd,
    Dot,
    Caret,
    Comma,
    Brace,
    BraceEnd,
    Ampersand,
    DoubleAmpersand,
    At,
}

// What tokens are apart from their kind.
#[derive(Clone, Copy, PartialEq, Eq, Debug)]
pub enum Class {
    Name,
    Literal,
    // A reserved word.
    Word,
    // A reserved word that no rule of the language has a use for.
    Unused,
    Symbol,
}

impl Class {
    // The class in words.
    pub fn words(self) -> &'static str
        ensures { result.now ≡ class_words self }
    {
        match self {
            Class::Name => "name",
            Class::Literal => "literal",
            Class::Word => "word",
            Class::Unused => "word of no rule",
            Class::Symbol => "symbol",
        }
    }
}

impl fmt::Display for Class {
    ghost use Rattle.std.specs.Prelude.{Some};
    ghost use Rattle.std.specs.Fmt.{padded};
    ghost use Rattle.tiny.specs.Words.{class_words};

    ghost output = { λ class. Some (class_words class) };

    ghost styled_output = { λ class spec. Some (padded spec (class_words class)) };

    fn fmt<W: fmt::Write>(&self, f: &mut fmt::Formatter<W>) -> fmt::Result {
        f.pad(self.words())
    }
}

// The numbers of kinds.
impl From<Kind> for u8 {
    ghost from_gives = { λ kind r. r ≡ code kind };

    fn from(kind: Kind) -> u8 {
        kind as u8
    }
}

impl Kind {
    pub fn class(self) -> Class
        ensures { result ≡ class self }
    {
        match self {
            Kind::Name => Class::Name,
            Kind::Literal => Class::Literal,
            Kind::TrueWord
            | Kind::FalseWord
            | Kind::IntWord
            | Kind::BoolWord
            | Kind::StructWord
            | Kind::TypeWord
            | Kind::ProcWord
            | Kind::IfWord
            | Kind::ElseWord
            | Kind::WhileWord
            | Kind::ReadWord
            | Kind::WriteWord
            | Kind::NlWord
            | Kind::CallWord
            | Kind::And
            | Kind::Or
            | Kind::Not => Class::Word,
            Kind::RealWord | Kind::StringWord | Kind::NullWord | Kind::NewWord | Kind::DeleteWord =>
                Class::Unused,
            _ => Class::Symbol,
        }
    }
}

// A token of a kind, which ends before `end`. The value is that of a literal, and 0 of any other
// token.
#[derive(Clone, Copy, PartialEq, Eq, Debug)]
pub struct Lexeme {
    pub kind: Kind,
    pub end: usize,
    pub value: i32,
}

// A token is the stretch of the source from its place to its end.
pub type Token = Placed<Lexeme>;
