// How deep a tree is: the first node in the order of the source that is deeper than 96, or procedure
// that is nested deeper than 8.
ghost use Rattle.std.specs.Prelude.{◌≡◌, ℕ, ◌+◌, if◌then◌else◌, nat_lt};
ghost use Rattle.tiny.specs.Tree.{Fields, Formals, Statements, DeclarationTrees};
ghost use Rattle.meaning.specs.Stages.{break, deeper, deep, deep_type, deep_fields, deep_formals, deep_all, deep_statements, deep_declarations, deep_block};
ghost use Rattle.syntax.specs.View;
ghost use Rattle.checks.specs.Breaks.{Tells, depth_break};
ghost use Rattle.checks.specs.Depth.{Counts, DepthIs, DeepIs, deep_branches};

use crate::faults::{DepthCause, DepthFault};
use nodes::subtree::{Shape, Subtree};
use tiny::placed::Placed;
use tiny::tokens::{Kind, Token};

// The greatest depth of a node.
pub const MOST_DEEP: usize = 96;

// How many procedures may stand around one another.
pub const MOST_NESTED: usize = 8;

// How many nodes down, and inside how many procedures: each is counted up to 255.
#[derive(Clone, Copy)]
struct Depth {
    nodes: u8,
    procedures: u8,
}

impl Depth {
    // One node further down.
    fn deeper(self) -> Self
        ensures { (d l : ℕ) → Counts self d l → Counts result (d + 1) l }
    {
        Depth {
            nodes: self.nodes.saturating_add(1),
            ..self
        }
    }

    // Inside one more procedure.
    fn inside(self) -> Self
        ensures { (d l : ℕ) → Counts self d l → Counts result d (l + 1) }
    {
        Depth {
            procedures: self.procedures.saturating_add(1),
            ..self
        }
    }

    // A node that stands so deep.
    fn node(self, token: Token) -> Result<(), DepthFault>
        ensures { (d l : ℕ) → Counts self d l → Tells depth_break result (deeper 96 d token.place) }
    {
        if usize::from(self.nodes) > MOST_DEEP {
            return Err(Placed {
                what: DepthCause::Node,
                place: token.place,
            });
        }
        Ok(())
    }

    // The name of a procedure that stands so deep.
    fn procedure(self, name: Token) -> Result<(), DepthFault>
        ensures { (d l : ℕ) → Counts self d l → Tells depth_break result (if nat_lt 96 d then break 7 name.place else deeper 8 (l + 1) name.place) }
    {
        self.node(name)?;
        if usize::from(self.procedures) >= MOST_NESTED {
            return Err(Placed {
                what: DepthCause::Procedure,
                place: name.place,
            });
        }
        Ok(())
    }

    fn expression(self, tree: Subtree<'_>) -> Result<(), DepthFault>
        ensures { DeepIs tree.entry self result (λ t d l. deep (View.expression t) d) }
    {
        match tree.shape() {
            Shape::Leaf { token } => self.node(token),
            Shape::Under { token, part } => {
                self.node(token)?;
                self.deeper().expression(part)
            }
            Shape::Join { token, left, right } => {
                self.deeper().expression(left)?;
                self.node(token)?;
                if token.what.kind == Kind::Dot {
                    return Ok(());
                }
                self.deeper().expression(right)
            }
        }
    }

    #[cycle(types)]
    fn type_tree(self, tree: Subtree<'_>) -> Result<(), DepthFault>
        ensures { DeepIs tree.entry self result (λ t d l. deep_type (View.type_tree t) d) }
    {
        match tree.shape() {
            Shape::Leaf { token } => self.node(token),
            Shape::Under { token, part } => {
                self.node(token)?;
                self.deeper().fields(part)
            }
            Shape::Join { token, left, .. } => {
                self.deeper().type_tree(left)?;
                self.node(token)
            }
        }
    }

    #[cycle(types)]
    fn fields(self, tree: Subtree<'_>) -> Result<(), DepthFault>
        ensures { DeepIs tree.entry self result (λ t d l. deep_fields (View.fields t Fields.no_field) d) }
    {
        match tree.shape() {
            Shape::Leaf { .. } => Ok(()),
            Shape::Under { token, part } => {
                self.deeper().type_tree(part)?;
                self.node(token)
            }
            Shape::Join { left, right, .. } => {
                self.fields(left)?;
                self.fields(right)
            }
        }
    }

    fn formals(self, tree: Subtree<'_>) -> Result<(), DepthFault>
        ensures { DeepIs tree.entry self result (λ t d l. deep_formals (View.formals t Formals.no_formal) d) }
    {
        match tree.shape() {
            Shape::Leaf { .. } => Ok(()),
            Shape::Under { token, part } => {
                if token.what.kind == Kind::Open {
                    return self.formals(part);
                }
                self.deeper().type_tree(part.formal_type())?;
                self.node(token)
            }
            Shape::Join { left, right, .. } => {
                self.formals(left)?;
                self.formals(right)
            }
        }
    }

    fn expressions(self, tree: Subtree<'_>) -> Result<(), DepthFault>
        ensures { DeepIs tree.entry self result (λ t d l. deep_all (View.expressions t) d) }
    {
        match tree.shape() {
            Shape::Join { token, left, right } if token.what.kind == Kind::Comma => {
                self.expression(left)?;
                self.expressions(right)
            }
            _ => self.expression(tree),
        }
    }

    fn arguments(self, tree: Subtree<'_>) -> Result<(), DepthFault>
        ensures { DeepIs tree.entry self result (λ t d l. deep_all (View.arguments t) d) }
    {
        match tree.shape() {
            Shape::Under { part, .. } => self.expressions(part),
            _ => Ok(()),
        }
    }

    #[cycle(blocks)]
    fn declarations(self, tree: Subtree<'_>) -> Result<(), DepthFault>
        ensures { DeepIs tree.entry self result (λ t d l. deep_declarations (View.declarations t DeclarationTrees.no_declaration) d l) }
    {
        match tree.shape() {
            Shape::Leaf { .. } => Ok(()),
            Shape::Under { token, part } => match token.what.kind {
                Kind::DoubleAmpersand => self.declarations(part),
                Kind::TypeWord => {
                    self.deeper().type_tree(part.part())?;
                    self.node(part.token())
                }
                Kind::Name => {
                    self.deeper().type_tree(part)?;
                    self.node(token)
                }
                _ => Ok(()),
            },
            Shape::Join { token, left, right } => match token.what.kind {
                Kind::DoubleAmpersand => self.declarations(left),
                Kind::Semicolon => {
                    self.declarations(left)?;
                    self.declarations(right)
                }
                Kind::ProcWord => {
                    self.procedure(left.token())?;
                    self.deeper().formals(left.part())?;
                    self.deeper().inside().block(right)
                }
                _ => Ok(()),
            },
        }
    }

    #[cycle(blocks)]
    fn statements(self, tree: Subtree<'_>) -> Result<(), DepthFault>
        ensures { DeepIs tree.entry self result (λ t d l. deep_statements (View.statements t Statements.no_statement) d l) }
    {
        match tree.shape() {
            Shape::Leaf { token } => self.node(token),
            Shape::Under { token, part } => match token.what.kind {
                Kind::DoubleAmpersand => Ok(()),
                Kind::At | Kind::ReadWord | Kind::WriteWord => {
                    self.node(token)?;
                    self.deeper().expression(part)
                }
                _ => self.block(tree),
            },
            Shape::Join { token, left, right } => match token.what.kind {
                Kind::DoubleAmpersand => self.statements(right),
                Kind::Semicolon => {
                    self.statements(left)?;
                    self.statements(right)
                }
                Kind::IfWord => {
                    self.node(token)?;
                    self.deeper().expression(left)?;
                    self.deeper().branches(right)
                }
                Kind::WhileWord => {
                    self.node(token)?;
                    self.deeper().expression(left)?;
                    self.deeper().block(right)
                }
                _ => {
                    self.node(token)?;
                    self.deeper().node(left.token())?;
                    self.deeper().arguments(right)
                }
            },
        }
    }

    // The one block of an `if`, or both.
    #[cycle(blocks)]
    fn branches(self, tree: Subtree<'_>) -> Result<(), DepthFault>
        ensures { DeepIs tree.entry self result (λ t d l. deep_branches t d l) }
    {
        match tree.shape() {
            Shape::Join { left, right, .. } => {
                self.block(left)?;
                self.block(right)
            }
            _ => self.block(tree),
        }
    }

    #[cycle(blocks)]
    fn block(self, tree: Subtree<'_>) -> Result<(), DepthFault>
        ensures { DeepIs tree.entry self result (λ t d l. deep_block (View.block t) d l) }
    {
        match tree.shape() {
            Shape::Leaf { token } | Shape::Join { token, .. } => self.node(token),
            Shape::Under { token, part } => {
                self.node(token)?;
                let below = self.deeper();
                below.declarations(part)?;
                below.statements(part)
            }
        }
    }
}

// The first node that is too deep, in the order of the source, or none. The tree is that of the
// outermost block, as the parser leaves it.
pub fn check_depth(tree: Subtree<'_>) -> Result<(), DepthFault>
    ensures { DepthIs tree.entry result (λ t. deep_block (View.block t) 1 0) }
{
    let outermost = Depth {
        nodes: 1,
        procedures: 0,
    };
    outermost.block(tree)
}
