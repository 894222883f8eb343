// The names that are declared: a stack in a table, the latest on top. A name is a stretch of the
// source, and names are compared byte by byte.
ghost use Rattle.std.specs.Prelude.{◌≡◌, ◌+◌, ◌-◌, ◌≤◌, [], ◌∷◌, ◌++◌, take};
ghost use Rattle.meaning.specs.Types.{same_name};
ghost use Rattle.checks.specs.Declares.{listed, most, FitsOne};
ghost use Rattle.checks.specs.Names.{text_of, held};

use tables::table::Table;
use tiny::tokens::Token;

#[derive(Clone, Copy)]
pub struct NameRecord {
    pub place: usize,
    pub end: usize,
}

impl From<Token> for NameRecord {
    ghost from_gives = { λ t r. r ≡ record { place = t.place; end = t.what.end } };

    fn from(token: Token) -> Self {
        NameRecord {
            place: token.place,
            end: token.what.end,
        }
    }
}

// The names of a source in their table.
#[derive(Drop)]
pub(crate) struct Names<'s, 't, 'c> {
    pub source: &'s [u8],
    pub table: &'t mut Table<'c, NameRecord>,
}

impl Names<'_, '_, '_> {
    // Whether one of the names from `start` up to `end` is spelled so.
    pub fn holds(&self, start: usize, end: usize, name: NameRecord) -> bool
        requires { start ≤ end }
        ensures { result ≡ held self.now.source.now (listed self.now) start (end - start) (text_of self.now.source.now name) }
    {
        let Some(names) = self.table.as_slice().get(start..end) else {
            return false;
        };
        names
            .iter()
            .rev()
            .any(|other| spelled_alike(self.source, name, *other))
    }

    // Puts a name on top of the first `len`, and says how many there are then.
    pub fn put(&mut self, len: usize, name: NameRecord) -> usize
        requires { FitsOne self.old len }
        ensures source { self.new.source.now ≡ self.old.source.now }
        ensures items { listed self.new ≡ take len (listed self.old) ++ (name ∷ []) }
        ensures room { most self.new ≡ most self.old }
        ensures count { result ≡ len + 1 }
    {
        self.table.truncate(len);
        self.table.push(name);
        self.table.len()
    }
}

// Whether two names are spelled alike.
fn spelled_alike(source: &[u8], a: NameRecord, b: NameRecord) -> bool
    ensures { result ≡ same_name (text_of source.now a) (text_of source.now b) }
{
    text_of(source, a) == text_of(source, b)
}

// The bytes of a name.
fn text_of(source: &[u8], name: NameRecord) -> &[u8]
    ensures { result.now ≡ text_of source.now name }
{
    let end = name.end.min(source.len());
    source.get(name.place..end).unwrap_or(&[])
}
