// The grammar of the language, and its law.
#![tactic(auto)]

ghost use Rattle.syntax.specs.Examples.{WorkedRules};
ghost use Rattle.syntax.specs.Law.{Accepts, Refuses, Paid};

// The parser of the specification decides the grammar: it accepts with a tree just where the
// grammar derives it, and refuses just at the first token after which nothing legal continues. The
// tree has at most one node for each token.
pub fn parse_is_the_grammar()
    ensures accepts { Accepts }
    ensures refuses { Refuses }
    ensures paid { Paid }
{}

// Short sources, and the rules that they are, or where they are refused.
pub fn worked_rules_stand()
    ensures { WorkedRules }
{}
