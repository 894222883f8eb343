// Names: the first in the order of the source that is not declared, or that its scope has already.
ghost use Rattle.std.specs.Prelude.{◌≡◌, ◌≤◌, ◌++◌, ℕ, List, []};
ghost use Rattle.tiny.specs.Scan.{token_in};
ghost use Rattle.tiny.specs.Tree.{Name, Fields, Formals, Statements, DeclarationTrees};
ghost use Rattle.meaning.specs.Stages.{Open, undeclared, twice, names, names_all, names_type, names_fields, names_formals, open_formals, names_statements, names_declarations, open_declarations, names_block};
ghost use Rattle.syntax.specs.Shape.{Tree, size};
ghost use Rattle.syntax.specs.View;
ghost use Rattle.nodes.specs.Subtrees.{Shown};
ghost use Rattle.tables.specs.Items.{capacity};
ghost use Rattle.checks.specs.Branches.{names_branches};
ghost use Rattle.checks.specs.Breaks.{Tells};
ghost use Rattle.checks.specs.Declares.{name_break, Inner, Declares, NamesAre, FitsIn, Fits, FitsBoth, FitsOne, Keeps, Named, Fielded, Opened, Proceeded, Closes, WhenOk, names_procedure, new_names, inside, behind};

use crate::faults::{NameCause, NameFault};
use crate::names::{NameRecord, Names};
use crate::scope::{Enclosed, Scope};
use nodes::subtree::{Shape, Subtree};
use tables::table::Table;
use tiny::placed::Placed;
use tiny::tokens::{Kind, Token};

impl Names<'_, '_, '_> {
    // A name that is used.
    fn used(&self, scope: Scope, token: Token) -> Result<(), NameFault>
        ensures { (source : List ℕ) (Δ : Open) → Declares source self.now scope Δ → Tells name_break result (undeclared Δ token.place (token_in source token).text) }
    {
        if self.holds(0, scope.top, token.into()) {
            return Ok(());
        }
        Err(Placed {
            what: NameCause::Undeclared,
            place: token.place,
        })
    }

    // A name that a scope gets.
    fn declare(&mut self, scope: &mut Scope, token: Token) -> Result<(), NameFault>
        requires { FitsOne self.old scope.old.top }
        ensures twice { (source : List ℕ) (xs : List Name) → Inner source self.old scope.old xs → Tells name_break result (twice xs token.place (token_in source token).text) }
        ensures named { WhenOk result (Named self.old self.new scope.old scope.new token) }
    {
        let name = token.into();
        if self.holds(scope.start, scope.top, name) {
            return Err(Placed {
                what: NameCause::Twice,
                place: token.place,
            });
        }
        scope.top = self.put(scope.top, name);
        Ok(())
    }

    fn expression(&self, scope: Scope, tree: Subtree<'_>) -> Result<(), NameFault>
        ensures { NamesAre self.now scope tree.entry result (λ t Δ. names (View.expression t) Δ) }
    {
        match tree.shape() {
            Shape::Leaf { token } if token.what.kind == Kind::Name => self.used(scope, token),
            Shape::Leaf { .. } => Ok(()),
            Shape::Under { part, .. } => self.expression(scope, part),
            Shape::Join { token, left, right } => {
                self.expression(scope, left)?;
                if token.what.kind == Kind::Dot {
                    return Ok(());
                }
                self.expression(scope, right)
            }
        }
    }

    fn expressions(&self, scope: Scope, tree: Subtree<'_>) -> Result<(), NameFault>
        ensures { NamesAre self.now scope tree.entry result (λ t Δ. names_all (View.expressions t) Δ) }
    {
        match tree.shape() {
            Shape::Join { token, left, right } if token.what.kind == Kind::Comma => {
                self.expression(scope, left)?;
                self.expressions(scope, right)
            }
            _ => self.expression(scope, tree),
        }
    }

    fn arguments(&self, scope: Scope, tree: Subtree<'_>) -> Result<(), NameFault>
        ensures { NamesAre self.now scope tree.entry result (λ t Δ. names_all (View.arguments t) Δ) }
    {
        match tree.shape() {
            Shape::Under { part, .. } => self.expressions(scope, part),
            _ => Ok(()),
        }
    }

    // Names of types, and fields that a struct has already. The table is free from `free` on.
    #[cycle(types)]
    fn type_tree(&mut self, scope: Scope, free: usize, tree: Subtree<'_>) -> Result<(), NameFault>
        requires fits { Fits self.old free tree size }
        requires below { scope.top ≤ free }
        ensures names { NamesAre self.old scope tree.entry result (λ t Δ. names_type (View.type_tree t) Δ) }
        ensures keeps { WhenOk result (Keeps free self.old self.new) }
    {
        match tree.shape() {
            Shape::Leaf { token } => {
                if token.what.kind == Kind::Name {
                    return self.used(scope, token);
                }
                Ok(())
            }
            Shape::Under { part, .. } => self.fields(scope, &mut Scope::on(free), part),
            Shape::Join { left, .. } => self.type_tree(scope, free, left),
        }
    }

    // The fields of one struct are a scope of their own, `inner`.
    #[cycle(types)]
    fn fields(
        &mut self,
        scope: Scope,
        inner: &mut Scope,
        tree: Subtree<'_>,
    ) -> Result<(), NameFault>
        requires fits { Fits self.old inner.old.top tree size }
        requires below { scope.top ≤ inner.old.start }
        ensures names { (source : List ℕ) (t : Tree) (Δ : Open) (xs : List Name) → Shown source tree.entry t → Declares source self.old scope Δ → Inner source self.old inner.old xs → Tells name_break result (names_fields (View.fields t Fields.no_field) xs Δ) }
        ensures after { WhenOk result (Fielded tree.entry self.old self.new inner.old inner.new) }
    {
        match tree.shape() {
            Shape::Leaf { .. } => Ok(()),
            Shape::Under { token, part } => {
                self.type_tree(scope, inner.top, part)?;
                self.declare(inner, token)
            }
            Shape::Join { left, right, .. } => {
                self.fields(scope, inner, left)?;
                self.fields(scope, inner, right)
            }
        }
    }

    // Formals are one scope, which they open.
    fn formals(&mut self, scope: &mut Scope, tree: Subtree<'_>) -> Result<(), NameFault>
        requires { Fits self.old scope.old.top tree size }
        ensures names { NamesAre self.old scope.old tree.entry result (λ t Δ. names_formals (View.formals t Formals.no_formal) Δ) }
        ensures after { WhenOk result (Opened tree.entry self.old self.new scope.old scope.new (λ t Δ. open_formals (View.formals t Formals.no_formal) Δ) size) }
    {
        match tree.shape() {
            Shape::Leaf { .. } => Ok(()),
            Shape::Under { token, part } => {
                if token.what.kind == Kind::Open {
                    return self.formals(scope, part);
                }
                let outer = *scope;
                self.type_tree(outer, outer.top, part.formal_type())?;
                self.declare(scope, token)
            }
            Shape::Join { left, right, .. } => {
                self.formals(scope, left)?;
                self.formals(scope, right)
            }
        }
    }

    // Declarations add to the innermost scope.
    #[cycle(blocks)]
    fn declarations(&mut self, scope: &mut Scope, tree: Subtree<'_>) -> Result<(), NameFault>
        requires { Fits self.old scope.old.top tree size }
        ensures names { NamesAre self.old scope.old tree.entry result (λ t Δ. names_declarations (View.declarations t DeclarationTrees.no_declaration) Δ) }
        ensures after { WhenOk result (Opened tree.entry self.old self.new scope.old scope.new (λ t Δ. open_declarations (View.declarations t DeclarationTrees.no_declaration) Δ) new_names) }
    {
        let outer = *scope;
        match tree.shape() {
            Shape::Leaf { .. } => Ok(()),
            Shape::Under { token, part } => match token.what.kind {
                Kind::DoubleAmpersand => self.declarations(scope, part),
                Kind::TypeWord => {
                    self.type_tree(outer, outer.top, part.part())?;
                    self.declare(scope, part.token())
                }
                Kind::Name => {
                    self.type_tree(outer, outer.top, part)?;
                    self.declare(scope, token)
                }
                _ => Ok(()),
            },
            Shape::Join { token, left, right } => match token.what.kind {
                Kind::DoubleAmpersand => self.declarations(scope, left),
                Kind::Semicolon => {
                    self.declarations(scope, left)?;
                    self.declarations(scope, right)
                }
                Kind::ProcWord => self.procedure(scope, left, right),
                _ => Ok(()),
            },
        }
    }

    // A procedure: its name, which its formals and its block see, then the scope of its formals.
    #[cycle(blocks)]
    fn procedure(
        &mut self,
        scope: &mut Scope,
        head: Subtree<'_>,
        body: Subtree<'_>,
    ) -> Result<(), NameFault>
        requires { FitsBoth self.old scope.old.top head body }
        ensures names { (source : List ℕ) (l m : Tree) (Δ : Open) → Shown source head.entry l → Shown source body.entry m → Declares source self.old scope.old Δ → Tells name_break result (names_procedure l m Δ) }
        ensures after { WhenOk result (Proceeded head.entry self.old self.new scope.old scope.new) }
    {
        self.declare(scope, head.token())?;
        let inner = Enclosed::open(scope);
        self.formals(inner.scope, head.part())?;
        self.block(inner.scope, body)
    }

    #[cycle(blocks)]
    fn statements(&mut self, scope: &mut Scope, tree: Subtree<'_>) -> Result<(), NameFault>
        requires { Fits self.old scope.old.top tree behind }
        ensures names { NamesAre self.old scope.old tree.entry result (λ t Δ. names_statements (View.statements t Statements.no_statement) Δ) }
        ensures closes { Closes result self.old self.new scope.old scope.new }
    {
        match tree.shape() {
            Shape::Leaf { .. } => Ok(()),
            Shape::Under { token, part } => match token.what.kind {
                Kind::DoubleAmpersand => Ok(()),
                Kind::At | Kind::ReadWord | Kind::WriteWord => self.expression(*scope, part),
                _ => self.block(scope, tree),
            },
            Shape::Join { token, left, right } => match token.what.kind {
                Kind::DoubleAmpersand => self.statements(scope, right),
                Kind::Semicolon => {
                    self.statements(scope, left)?;
                    self.statements(scope, right)
                }
                Kind::IfWord => {
                    self.expression(*scope, left)?;
                    self.branches(scope, right)
                }
                Kind::WhileWord => {
                    self.expression(*scope, left)?;
                    self.block(scope, right)
                }
                _ => {
                    self.used(*scope, left.token())?;
                    self.arguments(*scope, right)
                }
            },
        }
    }

    // The one block of an `if`, or both.
    #[cycle(blocks)]
    fn branches(&mut self, scope: &mut Scope, tree: Subtree<'_>) -> Result<(), NameFault>
        requires { Fits self.old scope.old.top tree inside }
        ensures names { NamesAre self.old scope.old tree.entry result (λ t Δ. names_branches t Δ) }
        ensures closes { Closes result self.old self.new scope.old scope.new }
    {
        match tree.shape() {
            Shape::Join { left, right, .. } => {
                self.block(scope, left)?;
                self.block(scope, right)
            }
            _ => self.block(scope, tree),
        }
    }

    // A block is a scope of its own: the scope record is the same after it, however it ends.
    #[cycle(blocks)]
    fn block(&mut self, scope: &mut Scope, tree: Subtree<'_>) -> Result<(), NameFault>
        requires { Fits self.old scope.old.top tree inside }
        ensures names { NamesAre self.old scope.old tree.entry result (λ t Δ. names_block (View.block t) Δ) }
        ensures closes { Closes result self.old self.new scope.old scope.new }
    {
        match tree.shape() {
            Shape::Under { part, .. } => {
                let inside = Enclosed::open(scope);
                self.declarations(inside.scope, part)?;
                self.statements(inside.scope, part)
            }
            _ => Ok(()),
        }
    }
}

// The first name that is not declared or that its scope has already, in the order of the source, or
// none. The tree is that of the outermost block, as the parser leaves it, and the table of names has
// a record for each of its nodes.
pub fn check_names(
    source: &[u8],
    tree: Subtree<'_>,
    table: &mut Table<NameRecord>,
) -> Result<(), NameFault>
    requires { FitsIn source.now tree 0 (capacity table.old) }
    ensures { (t : Tree) → Shown source.now tree.entry t → Tells name_break result (names_block (View.block t) []) }
{
    Names { source, table }.block(&mut Scope::on(0), tree)
}
