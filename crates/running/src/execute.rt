// One instruction carried out over what a run has lent.
ghost use Rattle.std.specs.Prelude.{◌≡◌, ◌<◌, true};
ghost use Rattle.machine.specs.declared.instruction.Instruction.TheVariants.{Jf};
ghost use Rattle.machine.specs.Machine.{effect};
ghost use Rattle.running.specs.Running.{Carried, managed};

use crate::flow::Flow;
use crate::operators::{add, divide, multiply, negate, remainder, subtract};
use crate::run::Run;
use crate::talking::bit;
use machine::fault::Fault;
use machine::host::{Event, Host};
use machine::instruction::Instruction;

impl<H: Host> Run<'_, H> {
    // Jumps where the value on top is 0.
    fn branch(&mut self, to: u32) -> Result<Flow, Fault>
        ensures { Carried H.Host (effect (Jf to)) self.old result self.new }
    {
        if self.registers.pop()? == 0 {
            Ok(Flow::To(to))
        } else {
            Ok(Flow::Next)
        }
    }

    // Carries out an instruction on frames, on many cells or on the host, or the last one.
    fn manage(&mut self, instruction: Instruction) -> Result<Flow, Fault>
        requires { self.old.registers.now.next < 1048576 }
        ensures { managed instruction ≡ true → Carried H.Host (effect instruction) self.old result self.new }
    {
        match instruction {
            Instruction::Copy(size) => self.copy(size),
            Instruction::Zero(level, start, size) => self.clear(level, start, size),
            Instruction::Frame(size) => self.take_frame(size),
            Instruction::Enter(level, to) => self.enter(level, to),
            Instruction::Leave(level) => self.leave(level),
            Instruction::Geti => self.read(|value| Ok(value)),
            Instruction::Getb => self.read(bit),
            Instruction::Puti => self.write(|value| Event::Int(value)),
            Instruction::Putb => self.write(|value| Event::Bool(value != 0)),
            Instruction::Nl => self.say(Event::Line),
            _ => Ok(Flow::Stop),
        }
    }

    // Carries out one instruction, but for the move to the next.
    pub(crate) fn execute(&mut self, instruction: Instruction) -> Result<Flow, Fault>
        requires { self.old.registers.now.next < 1048576 }
        ensures { Carried H.Host (effect instruction) self.old result self.new }
    {
        match instruction {
            Instruction::Lit(value) => self.push(value),
            Instruction::Var(level, at) => self.variable(level, at),
            Instruction::Off(count) => self.offset(count),
            Instruction::Ld => self.load(),
            Instruction::St => self.store(),
            Instruction::Stk => self.store_and_keep(),
            Instruction::Index(count, size) => self.index(count, size),
            Instruction::Add => self.binary(add),
            Instruction::Sub => self.binary(subtract),
            Instruction::Mul => self.binary(multiply),
            Instruction::Div => self.binary(divide),
            Instruction::Mod => self.binary(remainder),
            Instruction::Neg => self.unary(negate),
            Instruction::Not => self.unary(|x| Ok(i32::from(x == 0))),
            Instruction::And => self.binary(|x, y| Ok(i32::from(x != 0 && y != 0))),
            Instruction::Or => self.binary(|x, y| Ok(i32::from(x != 0 || y != 0))),
            Instruction::Lt => self.binary(|x, y| Ok(i32::from(x < y))),
            Instruction::Le => self.binary(|x, y| Ok(i32::from(x <= y))),
            Instruction::Gt => self.binary(|x, y| Ok(i32::from(x > y))),
            Instruction::Ge => self.binary(|x, y| Ok(i32::from(x >= y))),
            Instruction::Eq => self.binary(|x, y| Ok(i32::from(x == y))),
            Instruction::Ne => self.binary(|x, y| Ok(i32::from(x != y))),
            Instruction::Jmp(to) => Ok(Flow::To(to)),
            Instruction::Jf(to) => self.branch(to),
            Instruction::Dup => self.double(),
            Instruction::Pop => self.discard(),
            _ => self.manage(instruction),
        }
    }
}
