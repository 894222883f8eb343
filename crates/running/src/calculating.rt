// Instructions that change the operands and nothing else.
#![tactic(auto, using(crate::proofs::Settling::settling))]

ghost use Rattle.std.specs.Prelude.{ℤ};
ghost use Rattle.machine.specs.declared.instruction.Instruction.TheVariants.{Lit, Var, Off, Ld, Index, Dup, Pop};
ghost use Rattle.machine.specs.Ints.{Answer};
ghost use Rattle.machine.specs.Machine.{effect};
ghost use Rattle.running.specs.Calculations.{Follows, FollowsOne, combined, turned, element};
ghost use Rattle.running.specs.Running.{Carried};
ghost use Rattle.running.specs.Settling.{Settles};

use crate::address::Address;
use crate::flow::Flow;
use crate::run::Run;
use machine::fault::Fault;
use machine::host::Host;

// The address of element `index` of `count` that take `size` cells each.
fn element(count: u32, size: u32, start: i32, index: i32) -> Result<Address, Fault>
    ensures { Settles (element count size start index) result }
{
    if index < 0 || index as u32 >= count {
        return Err(Fault::Bounds);
    }
    Address::try_from(i64::from(start) + i64::from(index) * i64::from(size))
}

impl<H: Host> Run<'_, H> {
    // One operand more, if there are not yet 128.
    pub(crate) fn push(&mut self, value: i32) -> Result<Flow, Fault>
        ensures { Carried H.Host (effect (Lit value)) self.old result self.new }
    {
        self.registers.push(value)?;
        Ok(Flow::Next)
    }

    // The address of a cell of a level's frame.
    pub(crate) fn variable(&mut self, level: u8, at: u32) -> Result<Flow, Fault>
        ensures { Carried H.Host (effect (Var level at)) self.old result self.new }
    {
        self.registers.room()?;
        let base = self.registers.base(level).number();
        let address = i32::try_from(u64::from(base) + u64::from(at)).map_err(|_| Fault::Address)?;
        self.registers.push(address)?;
        Ok(Flow::Next)
    }

    // The address `count` cells on.
    pub(crate) fn offset(&mut self, count: u32) -> Result<Flow, Fault>
        ensures { Carried H.Host (effect (Off count)) self.old result self.new }
    {
        let start = self.registers.pop()?;
        let address = Address::try_from(i64::from(start) + i64::from(count))?;
        self.registers.push(i32::from(address))?;
        Ok(Flow::Next)
    }

    // The address becomes the content of its cell.
    pub(crate) fn load(&mut self) -> Result<Flow, Fault>
        ensures { Carried H.Host (effect Ld) self.old result self.new }
    {
        let address = self.registers.pop()?;
        let at = self.place(i64::from(address), 1)?;
        let content = self.cells[at];
        self.registers.push(content)?;
        Ok(Flow::Next)
    }

    // An array's address and an index become the element's address.
    pub(crate) fn index(&mut self, count: u32, size: u32) -> Result<Flow, Fault>
        ensures { Carried H.Host (effect (Index count size)) self.old result self.new }
    {
        let index = self.registers.pop()?;
        let start = self.registers.pop()?;
        let address = element(count, size, start, index)?;
        self.registers.push(i32::from(address))?;
        Ok(Flow::Next)
    }

    // Two operands become what an operator makes of them.
    pub(crate) fn binary<F: Fn(i32, i32) -> Result<i32, Fault>>(
        &mut self,
        operator: F,
    ) -> Result<Flow, Fault>
        requires { F.IsAlwaysCallable operator }
        ensures { (rule : ℤ → ℤ → Answer) → Follows (F.post operator) rule → Carried H.Host (combined rule) self.old result self.new }
    {
        let y = self.registers.pop()?;
        let x = self.registers.pop()?;
        let value = operator(x, y)?;
        self.registers.push(value)?;
        Ok(Flow::Next)
    }

    // An operand becomes what an operator makes of it.
    pub(crate) fn unary<F: Fn(i32) -> Result<i32, Fault>>(
        &mut self,
        operator: F,
    ) -> Result<Flow, Fault>
        requires { F.IsAlwaysCallable operator }
        ensures { (rule : ℤ → Answer) → FollowsOne (F.post operator) rule → Carried H.Host (turned rule) self.old result self.new }
    {
        let x = self.registers.pop()?;
        let value = operator(x)?;
        self.registers.push(value)?;
        Ok(Flow::Next)
    }

    // The newest operand stands twice.
    pub(crate) fn double(&mut self) -> Result<Flow, Fault>
        ensures { Carried H.Host (effect Dup) self.old result self.new }
    {
        let x = self.registers.pop()?;
        self.registers.push(x)?;
        self.registers.push(x)?;
        Ok(Flow::Next)
    }

    // The newest operand goes.
    pub(crate) fn discard(&mut self) -> Result<Flow, Fault>
        ensures { Carried H.Host (effect Pop) self.old result self.new }
    {
        self.registers.pop()?;
        Ok(Flow::Next)
    }
}
