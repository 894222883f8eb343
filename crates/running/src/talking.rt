// Instructions that read items and write events.
#![tactic(auto, using(crate::proofs::Settling::settling))]

ghost use Rattle.std.specs.Prelude.{ℤ};
ghost use Rattle.machine.specs.declared.host.Event.{Event};
ghost use Rattle.machine.specs.Faults.{Answered};
ghost use Rattle.machine.specs.Host.{Item, bit};
ghost use Rattle.machine.specs.Ints.{Answer};
ghost use Rattle.machine.specs.Machine.{get, say};
ghost use Rattle.running.specs.Running.{Carried, Accepts, Makes, written};

use crate::flow::Flow;
use crate::run::Run;
use machine::fault::Fault;
use machine::host::{Event, Host};

// A number that is read as a bool: 0 or 1.
pub(crate) fn bit(value: i32) -> Result<i32, Fault>
    ensures { Answered (bit value) result }
{
    match value {
        0 | 1 => Ok(value),
        _ => Err(Fault::Unreadable),
    }
}

impl<H: Host> Run<'_, H> {
    // Reads what `accept` makes of the number that waits to the address on top.
    pub(crate) fn read<F: Fn(i32) -> Result<i32, Fault>>(
        &mut self,
        accept: F,
    ) -> Result<Flow, Fault>
        requires { F.IsAlwaysCallable accept }
        ensures { (kind : Item → Answer) → Accepts (F.post accept) kind → Carried H.Host (get kind) self.old result self.new }
    {
        let address = self.registers.pop()?;
        let number = self.host.look().ok_or(Fault::NoItem)??;
        let value = accept(number)?;
        let at = self.place(i64::from(address), 1)?;
        self.cells[at] = value;
        self.host.take();
        Ok(Flow::Next)
    }

    // Writes an event.
    pub(crate) fn say(&mut self, event: Event) -> Result<Flow, Fault>
        ensures { Carried H.Host (λ m. say event m m.operands) self.old result self.new }
    {
        self.host.say(event)?;
        Ok(Flow::Next)
    }

    // Writes the event that `event` makes of the value on top.
    pub(crate) fn write<F: Fn(i32) -> Event>(&mut self, event: F) -> Result<Flow, Fault>
        requires { F.IsAlwaysCallable event }
        ensures { (made : ℤ → Event) → Makes (F.post event) made → Carried H.Host (written made) self.old result self.new }
    {
        let value = self.registers.pop()?;
        self.say(event(value))
    }
}
