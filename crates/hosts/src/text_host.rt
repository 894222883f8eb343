// A host of text: reads the parts of one lent text and writes events as text into lent bytes.
ghost use Rattle.std.specs.Prelude.{◌≡◌};
ghost use Rattle.tables.specs.Items.{items, capacity};
ghost use Rattle.hosts.specs.Texts.{text_host};

use crate::parts::{first_part, read_item};
use crate::rendering::{add_event, text_length};
use machine::host::{Event, Host, NoRoom, Unreadable};
use tables::table::Table;

// The input is what waits to be read.
#[derive(Drop)]
pub struct TextHost<'a> {
    input: &'a [u8],
    output: Table<'a, u8>,
}

impl<'a> TextHost<'a> {
    // A host whose items are the parts of the input and that has written nothing.
    pub fn new(input: &'a [u8], output: &'a mut [u8]) -> Self
        ensures { (result.output.used ≡ 0) × (result.input.now ≡ input.now) × (result.output.cells.now ≡ output.old) }
    {
        TextHost {
            input,
            output: Table::over(output),
        }
    }

    // What was written.
    pub fn output(&self) -> &[u8]
        ensures { result.now ≡ items self.now.output }
    {
        self.output.as_slice()
    }
}

impl<'a> Host for TextHost<'a> {
    ghost meaning = { λ s. text_host s.input.now (items s.output) (capacity s.output) };

    fn look(&self) -> Option<Result<i32, Unreadable>> {
        let (part, _) = first_part(self.input)?;
        Some(read_item(part))
    }

    // Blanks that nothing follows go too, so that later calls do not read them again.
    fn take(&mut self) {
        if let Some((_, rest)) = first_part(self.input) {
            self.input = rest;
        } else {
            self.input = &[];
        }
    }

    fn say(&mut self, event: Event) -> Result<(), NoRoom> {
        if self.output.room() < text_length(event) {
            return Err(NoRoom);
        }
        add_event(&mut self.output, event);
        Ok(())
    }
}
