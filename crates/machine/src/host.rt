// A host reads and writes for a run: what it means, and what its calls answer.
ghost use Rattle.std.specs.Prelude.{◌≡◌, ◌≤◌, length};
ghost use Rattle.machine.specs.Host.{Host as Meaning, first, taken, said_answer, said};

// The item that waits is no number.
#[derive(Clone, Copy, PartialEq, Eq, Debug)]
pub struct Unreadable;

// One thing to write.
#[derive(Clone, Copy, PartialEq, Eq, Debug)]
pub enum Event {
    Int(i32),
    Bool(bool),
    Line,
}

// The rendering does not fit what is left of the output.
#[derive(Clone, Copy, PartialEq, Eq, Debug)]
pub struct NoRoom;

// Where a run reads and writes. Its meaning is the list of waiting items, the marks written so far,
// how many marks there may be, and how each event is rendered. The last two never change.
pub trait Host {
    ghost meaning: { Self → Meaning };

    // The first waiting item, if any: a number, or an item that is none.
    fn look(&self) -> Option<Result<i32, Unreadable>>
        ensures { result ≡ first (meaning self.now).items };

    // Removes the first waiting item, if any.
    fn take(&mut self)
        ensures { meaning self.new ≡ taken (meaning self.old) };

    // Adds the event's rendering, which is never empty, or refuses and changes nothing where it does not fit.
    fn say(&mut self, event: Event) -> Result<(), NoRoom>
        ensures answer { result ≡ said_answer event (meaning self.old) }
        ensures after { meaning self.new ≡ said event (meaning self.old) }
        ensures some { 1 ≤ length ((meaning self.old).renders event) };
}
