// Types, fields, and the formals of a procedure.
// What structs do not nest through stands out of line, so that a level of nesting takes little stack.
ghost use Rattle.std.specs.Prelude.{[], ◌∷◌};
ghost use Rattle.syntax.specs.Grammar.{Sort};
ghost use Rattle.syntax.specs.Parse.{expect, further};
ghost use Rattle.syntax.specs.Parse.Tail.{array?};
ghost use Rattle.parser.specs.Forms.{operand};
ghost use Rattle.parser.specs.declared.forms.Tail.TheVariants.{Lengths};
ghost use Rattle.tiny.specs.declared.tokens.Kind.TheVariants.{Index};
ghost use Rattle.parser.specs.Reading.{Reads, Upto};

use crate::faults::SyntaxCause;
use crate::forms::{Listed, Tail};
use crate::parser::Parser;
use nodes::node::Node;
use tiny::tokens::Kind;

impl Parser<'_, '_, '_> {
    // A type, with the lengths of arrays behind it.
    #[cycle(parts)]
    pub fn whole_type(&mut self) -> Result<usize, SyntaxCause>
        ensures { Reads (expect Sort.type ∷ []) self.old result self.new }
    {
        let left = self.element()?;
        self.further(Tail::Lengths, left)
    }

    // A literal and `]`, behind `[`.
    #[inline(never)]
    pub(crate) fn length(&mut self) -> Result<usize, SyntaxCause>
        ensures { Reads (operand Lengths Index) self.old result self.new }
    {
        let token = self.expect(&[Kind::Literal])?;
        self.expect(&[Kind::IndexEnd])?;
        Ok(self.add(Node::Leaf { token }))
    }

    // A type but for the lengths behind it.
    #[cycle(parts)]
    fn element(&mut self) -> Result<usize, SyntaxCause>
        ensures { Upto (expect Sort.type ∷ []) (further array? ∷ []) self.old result self.new }
    {
        if let Some(token) = self.take(&[Kind::Name, Kind::IntWord, Kind::BoolWord]) {
            return Ok(self.add(Node::Leaf { token }));
        }
        let token = self.expect(&[Kind::StructWord])?;
        self.expect(&[Kind::Brace])?;
        let part = self.list(Listed::Fields)?;
        self.expect(&[Kind::BraceEnd])?;
        Ok(self.add(Node::Under { token, part }))
    }

    // A type and a name: a field, or a variable.
    #[cycle(parts)]
    pub fn field(&mut self) -> Result<usize, SyntaxCause>
        ensures { Reads (expect Sort.field ∷ []) self.old result self.new }
    {
        let part = self.whole_type()?;
        let token = self.expect(&[Kind::Name])?;
        Ok(self.add(Node::Under { token, part }))
    }

    // A formal, by value or by reference.
    #[cycle(parts)]
    #[inline(never)]
    pub fn formal(&mut self) -> Result<usize, SyntaxCause>
        ensures { Reads (expect Sort.formal ∷ []) self.old result self.new }
    {
        let part = self.whole_type()?;
        if let Some(token) = self.take(&[Kind::Ampersand]) {
            let part = self.add(Node::Under { token, part });
            let name = self.expect(&[Kind::Name])?;
            return Ok(self.add(Node::Under { token: name, part }));
        }
        let token = self.expect(&[Kind::Name])?;
        Ok(self.add(Node::Under { token, part }))
    }
}
