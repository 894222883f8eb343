// Expressions, a function for each level: from what is done last, `=`, to names and literals.
// Tails are read out of line, so that a level of nesting takes little stack.
ghost use Rattle.std.specs.Prelude.{[], ◌∷◌};
ghost use Rattle.syntax.specs.Grammar.{Sort};
ghost use Rattle.syntax.specs.Parse.{expect, further};
ghost use Rattle.syntax.specs.Parse.Tail.{minus?};
ghost use Rattle.parser.specs.Forms.{tail, operand, selecting};
ghost use Rattle.parser.specs.Reading.{Reads, Continues};

use crate::faults::SyntaxCause;
use crate::forms::Tail;
use crate::parser::Parser;
use nodes::node::Node;
use tiny::tokens::Kind;

impl Parser<'_, '_, '_> {
    // Level 0: `=` to the right.
    #[cycle(levels)]
    pub fn assignment(&mut self) -> Result<usize, SyntaxCause>
        ensures { Reads (expect Sort.e0 ∷ []) self.old result self.new }
    {
        let left = self.relations()?;
        self.further(Tail::Assignment, left)
    }

    // Level 1: relations to the left.
    #[cycle(levels)]
    fn relations(&mut self) -> Result<usize, SyntaxCause>
        ensures { Reads (expect Sort.e1 ∷ []) self.old result self.new }
    {
        let left = self.sums()?;
        self.further(Tail::Relation, left)
    }

    // Level 2: one `-` at most, and then `+` to the left.
    #[cycle(levels)]
    fn sums(&mut self) -> Result<usize, SyntaxCause>
        ensures { Reads (expect Sort.e2 ∷ []) self.old result self.new }
    {
        let left = self.difference()?;
        self.further(Tail::Sum, left)
    }

    #[cycle(levels)]
    fn difference(&mut self) -> Result<usize, SyntaxCause>
        ensures { Reads (expect Sort.e3 ∷ further minus? ∷ []) self.old result self.new }
    {
        let left = self.logic()?;
        self.further(Tail::Difference, left)
    }

    // Level 3: `and` to the right, one `or`.
    #[cycle(levels)]
    fn logic(&mut self) -> Result<usize, SyntaxCause>
        ensures { Reads (expect Sort.e3 ∷ []) self.old result self.new }
    {
        let left = self.products()?;
        self.further(Tail::Logic, left)
    }

    // Level 4: `* / %` to the left.
    #[cycle(levels)]
    fn products(&mut self) -> Result<usize, SyntaxCause>
        ensures { Reads (expect Sort.e4 ∷ []) self.old result self.new }
    {
        let left = self.prefix()?;
        self.further(Tail::Product, left)
    }

    // Level 5: `-` and `not` before an expression of this level.
    #[cycle(levels)]
    fn prefix(&mut self) -> Result<usize, SyntaxCause>
        ensures { Reads (expect Sort.e5 ∷ []) self.old result self.new }
    {
        if let Some(token) = self.take(&[Kind::Minus, Kind::Not]) {
            let part = self.prefix()?;
            return Ok(self.add(Node::Under { token, part }));
        }
        self.postfix()
    }

    // Level 6: `[ ]` and `.` behind an expression.
    #[cycle(levels)]
    fn postfix(&mut self) -> Result<usize, SyntaxCause>
        ensures { Reads (expect Sort.e6 ∷ []) self.old result self.new }
    {
        let left = self.basic()?;
        self.further(Tail::Postfix, left)
    }

    // A name, a literal, or any expression in parentheses.
    #[cycle(levels)]
    fn basic(&mut self) -> Result<usize, SyntaxCause>
        ensures { Reads (expect Sort.basic ∷ []) self.old result self.new }
    {
        if let Some(token) = self.take(&[
            Kind::Name,
            Kind::Literal,
            Kind::TrueWord,
            Kind::FalseWord,
        ]) {
            return Ok(self.add(Node::Leaf { token }));
        }
        self.expect(&[Kind::Open])?;
        let inner = self.assignment()?;
        self.expect(&[Kind::Close])?;
        Ok(inner)
    }

    // A tail behind an operand. Mostly there is none, which is seen without a call.
    #[cycle(levels)]
    pub(crate) fn further(&mut self, of: Tail, first: usize) -> Result<usize, SyntaxCause>
        ensures { Continues (tail of) first self.old result self.new }
    {
        if self.stands(of.operators()) {
            return self.operations(of, first);
        }
        Ok(first)
    }

    // Operators of a tail behind an operand, each with the operand on its right.
    #[cycle(levels)]
    #[inline(never)]
    fn operations(&mut self, of: Tail, first: usize) -> Result<usize, SyntaxCause>
        ensures { Continues (tail of) first self.old result self.new }
    {
        let mut left = first;
        while let Some(token) = self.take(of.operators()) {
            let right = self.operand(of, token.what.kind)?;
            left = self.add(Node::Join { token, left, right });
            if !of.repeats() {
                return Ok(left);
            }
        }
        Ok(left)
    }

    // What stands on the right of an operator.
    #[cycle(levels)]
    fn operand(&mut self, of: Tail, operator: Kind) -> Result<usize, SyntaxCause>
        ensures { Reads (operand of operator) self.old result self.new }
    {
        match of {
            Tail::Assignment => self.assignment(),
            Tail::Relation => self.sums(),
            Tail::Sum | Tail::Difference => self.logic(),
            Tail::Logic if operator == Kind::And => self.logic(),
            Tail::Logic => self.products(),
            Tail::Product => self.prefix(),
            Tail::Postfix => self.selector(operator),
            Tail::Lengths => self.length(),
        }
    }

    // What stands behind `.`, a name, or behind `[`, an expression and `]`.
    #[cycle(levels)]
    fn selector(&mut self, operator: Kind) -> Result<usize, SyntaxCause>
        ensures { Reads (selecting operator) self.old result self.new }
    {
        if operator == Kind::Dot {
            let token = self.expect(&[Kind::Name])?;
            return Ok(self.add(Node::Leaf { token }));
        }
        let inner = self.assignment()?;
        self.expect(&[Kind::IndexEnd])?;
        Ok(inner)
    }
}
