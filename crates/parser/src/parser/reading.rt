// Tokens are taken one by one, each if it is of a kind that may stand there.
ghost use Rattle.std.specs.Prelude.{◌≡◌};
ghost use Rattle.parser.specs.Ahead.{ahead, place_ahead, stands, Taken, Expected, Ended};

use crate::faults::SyntaxCause;
use crate::parser::Parser;
use tiny::tokens::{Kind, Token};

impl Parser<'_, '_, '_> {
    // Whether the next token is of one of these kinds.
    pub fn stands(&self, kinds: &[Kind]) -> bool
        ensures { result ≡ stands kinds.now (ahead self.now) }
    {
        self.next
            .is_some_and(|token| kinds.contains(&token.what.kind))
    }

    // Takes the next token if it is of one of these kinds.
    pub fn take(&mut self, kinds: &[Kind]) -> Option<Token>
        ensures { Taken kinds.now self.old result self.new }
    {
        let token = self.next?;
        if !kinds.contains(&token.what.kind) {
            return None;
        }
        self.next = self.scanner.next().unwrap();
        Some(token)
    }

    // Takes the next token, which has to be of one of these kinds.
    pub fn expect(&mut self, kinds: &[Kind]) -> Result<Token, SyntaxCause>
        ensures { Expected kinds.now self.old result self.new }
    {
        self.take(kinds).ok_or(SyntaxCause::Unexpected)
    }

    // No token is left.
    pub fn finish(&self) -> Result<(), SyntaxCause>
        ensures { Ended self.now result }
    {
        match self.next {
            Some(_) => Err(SyntaxCause::Unexpected),
            None => Ok(()),
        }
    }

    // The place of the next token, if there is one.
    pub fn place(&self) -> Option<usize>
        ensures { result ≡ place_ahead (ahead self.now) }
    {
        self.next.map(|token| token.place)
    }
}
