// A host of numbers: reads ints from one lent slice and writes two numbers for each event into another.
ghost use Rattle.std.specs.Prelude.{◌≡◌};
ghost use Rattle.tables.specs.Items.{items, capacity};
ghost use Rattle.hosts.specs.Numbers.{numbered, number_host};

use machine::host::{Event, Host, NoRoom, Unreadable};
use tables::table::Table;

// The input is what waits to be read.
#[derive(Drop)]
pub struct NumberHost<'a> {
    input: &'a [i32],
    output: Table<'a, i32>,
}

impl<'a> NumberHost<'a> {
    // A host whose items are the input and that has written nothing.
    pub fn new(input: &'a [i32], output: &'a mut [i32]) -> Self
        ensures { (result.output.used ≡ 0) × (result.input.now ≡ input.now) × (result.output.cells.now ≡ output.old) }
    {
        NumberHost {
            input,
            output: Table::over(output),
        }
    }

    // What was written.
    pub fn output(&self) -> &[i32]
        ensures { result.now ≡ items self.now.output }
    {
        self.output.as_slice()
    }
}

// The two numbers that stand for an event.
fn pair_of(event: Event) -> [i32; 2]
    ensures { result ≡ numbered event }
{
    match event {
        Event::Int(value) => [0, value],
        Event::Bool(value) => [1, i32::from(value)],
        Event::Line => [2, 0],
    }
}

impl<'a> Host for NumberHost<'a> {
    ghost meaning = { λ s. number_host s.input.now (items s.output) (capacity s.output) };

    fn look(&self) -> Option<Result<i32, Unreadable>> {
        self.input.first().copied().map(Ok)
    }

    fn take(&mut self) {
        if let [_, rest @ ..] = self.input {
            self.input = rest;
        }
    }

    fn say(&mut self, event: Event) -> Result<(), NoRoom> {
        let [tag, value] = pair_of(event);
        if self.output.room() < 2 {
            return Err(NoRoom);
        }
        self.output.push(tag);
        self.output.push(value);
        Ok(())
    }
}
