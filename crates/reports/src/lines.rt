// Where a place is in a source, as people count: by line and column.
ghost use Rattle.std.specs.Prelude.{◌≡◌, ◌≤◌, length};
ghost use Rattle.reports.specs.Lines.{located, line_ends, since, line_length};

// The line and the column of a place, both from 1, and the stretch of the source that its line is.
#[derive(Clone, Copy)]
pub struct Location {
    pub line: usize,
    pub column: usize,
    pub start: usize,
    pub end: usize,
}

// How many lines end in the bytes before a place.
fn lines_before(before: &[u8]) -> usize
    ensures count { result ≡ line_ends before.now }
    ensures few { result ≤ length before.now }
{
    before.iter().fold(0, |lines: usize, b| {
        lines.wrapping_add(usize::from(*b == b'\n'))
    })
}

// How many of the bytes before a place stand on its line.
fn bytes_before(before: &[u8]) -> usize
    ensures count { result ≡ since 0 before.now }
    ensures few { result ≤ length before.now }
{
    before.iter().fold(0, |bytes: usize, b| {
        if *b == b'\n' {
            0
        } else {
            bytes.wrapping_add(1)
        }
    })
}

// How many of the bytes from a place on stand on its line.
fn bytes_behind(behind: &[u8]) -> usize
    ensures count { result ≡ line_length behind.now }
    ensures few { result ≤ length behind.now }
{
    behind.iter().take_while(|b| **b != b'\n').count()
}

// The location of a place; a place past the end is the end.
pub fn locate(source: &[u8], place: usize) -> Location
    ensures { result ≡ located source.now place }
{
    let at = place.min(source.len());
    let (before, behind) = source.split_at(at);
    let column = bytes_before(before);
    Location {
        line: 1 + lines_before(before),
        column: 1 + column,
        start: at - column,
        end: at + bytes_behind(behind),
    }
}
