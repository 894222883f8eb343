// The scope record: which names are open, and what a block or a procedure changes and its end gives
// back.
ghost use Rattle.std.specs.Prelude.{◌≡◌, ◌≤◌};

#[derive(Clone, Copy)]
pub struct Scope {
    // How many names are open.
    pub top: usize,
    // Where the names of the innermost scope begin.
    pub start: usize,
    // Where the next variable of the frame goes.
    pub offset: u32,
    // How many procedures stand around.
    pub level: u8,
    ghost ordered: { start ≤ top },
}

impl Scope {
    // A scope with no names yet, on top of so many.
    pub fn on(top: usize) -> Self
        ensures top { result.top ≡ top }
        ensures start { result.start ≡ top }
        ensures offset { result.offset ≡ 0 }
        ensures level { result.level ≡ 0 }
    {
        Scope {
            top,
            start: top,
            offset: 0,
            level: 0,
        }
    }
}

// An open block or procedure: at its end, by its brace or by a refusal, the scope record is again
// what it was before.
pub struct Enclosed<'a> {
    pub scope: &'a mut Scope,
    pub before: Scope,
}

impl<'a> Enclosed<'a> {
    // Opens a scope with no names yet, inside the one that there is.
    pub fn open(scope: &'a mut Scope) -> Self
        ensures same_reference { result.scope.ghost_name ≡ scope.entry.ghost_name }
        ensures top { result.scope.now.top ≡ scope.old.top }
        ensures start { result.scope.now.start ≡ scope.old.top }
        ensures offset { result.scope.now.offset ≡ scope.old.offset }
        ensures level { result.scope.now.level ≡ scope.old.level }
        ensures before { result.before ≡ scope.old }
    {
        let before = *scope;
        scope.start = scope.top;
        Enclosed { scope, before }
    }
}

impl Drop for Enclosed<'_> {
    fn drop(self)
        ensures { self.exit.0.now ≡ self.entry.before }
    {
        let Enclosed { scope, before } = self;
        *scope = before;
    }
}
