// Lists with a separator, and what stands in brackets.
// What is behind an item is read out of line, so that a level of nesting takes little stack.
ghost use Rattle.std.specs.Prelude.{[], ◌∷◌};
ghost use Rattle.syntax.specs.Grammar.{Sort, item, contents};
ghost use Rattle.syntax.specs.Parse.{Tail, expect};
ghost use Rattle.parser.specs.Forms.{listed, bracket};
ghost use Rattle.parser.specs.Reading.{Reads, Continues};

use crate::faults::SyntaxCause;
use crate::forms::{Bracket, Listed};
use crate::parser::Parser;
use nodes::node::Node;

impl Parser<'_, '_, '_> {
    // An item, or an item and, behind the separator, more of them.
    #[cycle(parts)]
    pub fn list(&mut self, of: Listed) -> Result<usize, SyntaxCause>
        ensures { Reads (expect (Sort.list (listed of)) ∷ []) self.old result self.new }
    {
        let left = self.item(of)?;
        self.more(of, left)
    }

    // Behind an item: the separator and more of them, or nothing.
    #[cycle(parts)]
    #[inline(never)]
    fn more(&mut self, of: Listed, left: usize) -> Result<usize, SyntaxCause>
        ensures { Continues (Tail.more? (listed of)) left self.old result self.new }
    {
        if let Some(token) = self.take(&[of.separator()]) {
            let right = self.list(of)?;
            return Ok(self.add(Node::Join { token, left, right }));
        }
        Ok(left)
    }

    #[cycle(parts)]
    fn item(&mut self, of: Listed) -> Result<usize, SyntaxCause>
        ensures { Reads (expect (item (listed of)) ∷ []) self.old result self.new }
    {
        match of {
            Listed::Declarations => self.declaration(),
            Listed::Statements => self.statement(),
            Listed::Formals => self.formal(),
            Listed::Fields => self.field(),
            Listed::Arguments => self.assignment(),
        }
    }

    // Brackets, with nothing or all there is between them.
    #[cycle(parts)]
    pub fn enclosed(&mut self, by: Bracket) -> Result<usize, SyntaxCause>
        ensures { Reads (expect (Sort.enclosed (bracket by)) ∷ []) self.old result self.new }
    {
        let token = self.expect(&[by.opening()])?;
        if self.take(&[by.closing()]).is_some() {
            return Ok(self.add(Node::Leaf { token }));
        }
        let part = self.contents(by)?;
        self.expect(&[by.closing()])?;
        Ok(self.add(Node::Under { token, part }))
    }

    #[cycle(parts)]
    fn contents(&mut self, by: Bracket) -> Result<usize, SyntaxCause>
        ensures { Reads (expect (contents (bracket by)) ∷ []) self.old result self.new }
    {
        match by {
            Bracket::Braces => self.content(),
            Bracket::FormalParens => self.list(Listed::Formals),
            Bracket::ActualParens => self.list(Listed::Arguments),
        }
    }
}
