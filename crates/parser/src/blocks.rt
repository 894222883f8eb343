// What stands in a block: declarations and instructions.
// What blocks do not nest through stands out of line, so that a level of nesting takes little stack.
ghost use Rattle.std.specs.Prelude.{◌≡◌, [], ◌∷◌};
ghost use Rattle.syntax.specs.Grammar.{Sort};
ghost use Rattle.syntax.specs.Grammar.Listed.{declarations};
ghost use Rattle.syntax.specs.Parse.{Tail, expect, further};
ghost use Rattle.parser.specs.Ahead.{ahead, stands};
ghost use Rattle.parser.specs.Reading.{Reads, instructing};

use crate::faults::SyntaxCause;
use crate::forms::{Bracket, Listed};
use crate::parser::Parser;
use nodes::node::Node;
use tiny::tokens::Kind;

impl Parser<'_, '_, '_> {
    // Whether an instruction begins with the next token.
    fn instructs(&self) -> bool
        ensures { result ≡ stands instructing (ahead self.now) }
    {
        self.stands(&[
            Kind::Brace,
            Kind::At,
            Kind::IfWord,
            Kind::WhileWord,
            Kind::ReadWord,
            Kind::WriteWord,
            Kind::NlWord,
            Kind::CallWord,
        ])
    }

    // Instructions, declarations that `&&` ends, or both.
    #[cycle(parts)]
    pub fn content(&mut self) -> Result<usize, SyntaxCause>
        ensures { Reads (expect Sort.content ∷ []) self.old result self.new }
    {
        if self.instructs() {
            return self.list(Listed::Statements);
        }
        self.sections()
    }

    // Declarations and `&&`, with instructions behind it or none.
    #[cycle(parts)]
    #[inline(never)]
    fn sections(&mut self) -> Result<usize, SyntaxCause>
        ensures { Reads (expect (Sort.list declarations) ∷ further Tail.section_tail ∷ []) self.old result self.new }
    {
        let left = self.list(Listed::Declarations)?;
        let token = self.expect(&[Kind::DoubleAmpersand])?;
        if self.instructs() {
            let right = self.list(Listed::Statements)?;
            return Ok(self.add(Node::Join { token, left, right }));
        }
        Ok(self.add(Node::Under { token, part: left }))
    }

    // A type's name, a procedure, or a variable.
    #[cycle(parts)]
    #[inline(never)]
    pub fn declaration(&mut self) -> Result<usize, SyntaxCause>
        ensures { Reads (expect Sort.declaration ∷ []) self.old result self.new }
    {
        if let Some(token) = self.take(&[Kind::TypeWord]) {
            let part = self.whole_type()?;
            let name = self.expect(&[Kind::Name])?;
            let named = self.add(Node::Under { token: name, part });
            return Ok(self.add(Node::Under { token, part: named }));
        }
        if let Some(token) = self.take(&[Kind::ProcWord]) {
            let title = self.expect(&[Kind::Name])?;
            let formals = self.enclosed(Bracket::FormalParens)?;
            let left = self.add(Node::Under {
                token: title,
                part: formals,
            });
            let right = self.enclosed(Bracket::Braces)?;
            return Ok(self.add(Node::Join { token, left, right }));
        }
        self.field()
    }

    // An instruction. A block comes first, past the larger frame of the others.
    #[cycle(parts)]
    pub fn statement(&mut self) -> Result<usize, SyntaxCause>
        ensures { Reads (expect Sort.statement ∷ []) self.old result self.new }
    {
        if self.stands(&[Kind::Brace]) {
            return self.enclosed(Bracket::Braces);
        }
        self.action()
    }

    // An instruction over an expression, a call, or one with blocks; or else a block.
    #[cycle(parts)]
    #[inline(never)]
    fn action(&mut self) -> Result<usize, SyntaxCause>
        ensures { Reads (expect Sort.statement ∷ []) self.old result self.new }
    {
        if let Some(token) = self.take(&[Kind::At, Kind::ReadWord, Kind::WriteWord]) {
            let part = self.assignment()?;
            return Ok(self.add(Node::Under { token, part }));
        }
        if let Some(token) = self.take(&[Kind::NlWord]) {
            return Ok(self.add(Node::Leaf { token }));
        }
        if let Some(token) = self.take(&[Kind::CallWord]) {
            let name = self.expect(&[Kind::Name])?;
            let left = self.add(Node::Leaf { token: name });
            let right = self.enclosed(Bracket::ActualParens)?;
            return Ok(self.add(Node::Join { token, left, right }));
        }
        if let Some(token) = self.take(&[Kind::IfWord]) {
            let condition = self.assignment()?;
            let chosen = self.branches()?;
            return Ok(self.add(Node::Join {
                token,
                left: condition,
                right: chosen,
            }));
        }
        if let Some(token) = self.take(&[Kind::WhileWord]) {
            let test = self.assignment()?;
            let body = self.enclosed(Bracket::Braces)?;
            return Ok(self.add(Node::Join {
                token,
                left: test,
                right: body,
            }));
        }
        self.enclosed(Bracket::Braces)
    }

    // The block of an `if`, or its two blocks.
    #[cycle(parts)]
    fn branches(&mut self) -> Result<usize, SyntaxCause>
        ensures { Reads (expect Sort.branches ∷ []) self.old result self.new }
    {
        let left = self.enclosed(Bracket::Braces)?;
        if let Some(token) = self.take(&[Kind::ElseWord]) {
            let right = self.enclosed(Bracket::Braces)?;
            return Ok(self.add(Node::Join { token, left, right }));
        }
        Ok(left)
    }
}
