// What there are lists of, the brackets that may have nothing between them, and the tails of expressions.
ghost use Rattle.std.specs.Prelude.{◌≡◌};
ghost use Rattle.syntax.specs.Grammar.{separator, opening, closing};
ghost use Rattle.parser.specs.Forms.{listed, bracket, operators, repeats};

use tiny::tokens::Kind;

#[derive(Clone, Copy)]
pub enum Listed {
    Declarations,
    Statements,
    Formals,
    Fields,
    Arguments,
}

impl Listed {
    // What stands between two items.
    pub fn separator(self) -> Kind
        ensures { result ≡ separator (listed self) }
    {
        match self {
            Listed::Declarations | Listed::Statements => Kind::Semicolon,
            Listed::Formals | Listed::Fields | Listed::Arguments => Kind::Comma,
        }
    }
}

#[derive(Clone, Copy)]
pub enum Bracket {
    Braces,
    FormalParens,
    ActualParens,
}

impl Bracket {
    pub fn opening(self) -> Kind
        ensures { result ≡ opening (bracket self) }
    {
        match self {
            Bracket::Braces => Kind::Brace,
            Bracket::FormalParens | Bracket::ActualParens => Kind::Open,
        }
    }

    pub fn closing(self) -> Kind
        ensures { result ≡ closing (bracket self) }
    {
        match self {
            Bracket::Braces => Kind::BraceEnd,
            Bracket::FormalParens | Bracket::ActualParens => Kind::Close,
        }
    }
}

// What may go on from an operand, the operators of a level, or from a type, the lengths of arrays.
#[derive(Clone, Copy)]
pub enum Tail {
    Assignment,
    Relation,
    Sum,
    Difference,
    Logic,
    Product,
    Postfix,
    Lengths,
}

impl Tail {
    pub fn operators(self) -> &'static [Kind]
        ensures { result.now ≡ operators self }
    {
        match self {
            Tail::Assignment => &[Kind::Becomes],
            Tail::Relation => &[
                Kind::Less,
                Kind::Greater,
                Kind::LessEqual,
                Kind::GreaterEqual,
                Kind::Equal,
                Kind::NotEqual,
            ],
            Tail::Sum => &[Kind::Plus],
            Tail::Difference => &[Kind::Minus],
            Tail::Logic => &[Kind::And, Kind::Or],
            Tail::Product => &[Kind::Times, Kind::Over, Kind::Percent],
            Tail::Postfix => &[Kind::Index, Kind::Dot],
            Tail::Lengths => &[Kind::Index],
        }
    }

    // Whether more of its operators may follow, to the left.
    pub fn repeats(self) -> bool
        ensures { result ≡ repeats self }
    {
        match self {
            Tail::Relation | Tail::Sum | Tail::Product | Tail::Postfix | Tail::Lengths => true,
            Tail::Assignment | Tail::Difference | Tail::Logic => false,
        }
    }
}
