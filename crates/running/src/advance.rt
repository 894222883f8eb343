// A run over any shelf and any host: instructions one after the other, up to a budget.
ghost use Rattle.std.specs.Prelude.{◌≡◌, ℕ, ◌+◌, ◌≤◌, length};
ghost use Rattle.machine.specs.Shelves.{fetched};
ghost use Rattle.machine.specs.Machine.{attempted, run};
ghost use Rattle.running.specs.Running.{Lent, machine, machine_of};
ghost use Rattle.running.specs.Standings.{Came, Shows, begun};

use crate::flow::Flow;
use crate::registers::Registers;
use crate::run::Run;
use machine::fault::Fault;
use machine::host::Host;
use machine::shelf::Shelf;

// How a run stands.
#[derive(Clone, Copy, PartialEq, Eq, Debug)]
pub enum Standing {
    Going,
    Finished,
    Failed(Fault),
}

// How a run stands after some instructions, and how many of them were carried out.
#[derive(Clone, Copy)]
pub struct Progress {
    pub standing: Standing,
    pub spent: u64,
}

impl<H: Host> Run<'_, H> {
    // Carries out the next instruction of a run that is going.
    fn carry_out<S: Shelf>(&mut self, shelf: &S) -> Standing
        ensures came { Came (attempted (fetched (S.Shelf.code shelf.now) self.old.registers.now.next) (machine H.Host self.old)) result (machine H.Host self.old) (machine H.Host self.new) }
        ensures lent { Lent self.old self.new }
    {
        let next = self.registers.next;
        let Some(instruction) = shelf.fetch(next) else {
            return Standing::Failed(Fault::PastCode);
        };
        match self.execute(instruction) {
            Ok(Flow::Next) => {
                self.registers.next = next + 1;
                Standing::Going
            }
            Ok(Flow::To(to)) => {
                self.registers.next = to as usize;
                Standing::Going
            }
            Ok(Flow::Stop) => Standing::Finished,
            Err(fault) => Standing::Failed(fault),
        }
    }

    // Carries out instructions of a run that is going until the budget is spent or the run ends.
    fn carry_on<S: Shelf>(&mut self, shelf: &S, budget: u64) -> Progress
        ensures ran { (count : ℕ) → Shows (run (S.Shelf.code shelf.now) budget (begun count (machine H.Host self.old))) result.standing (count + result.spent) (machine H.Host self.new) }
        ensures within { result.spent ≤ budget }
        ensures lent { Lent self.old self.new }
    {
        for before in 0..budget {
            let standing = self.carry_out(shelf);
            let Standing::Going = standing else {
                return Progress {
                    standing,
                    spent: before + 1,
                };
            };
        }
        Progress {
            standing: Standing::Going,
            spent: budget,
        }
    }
}

// Carries out instructions of a run that is going until the budget is spent or the run ends.
pub fn advance<S: Shelf, H: Host>(
    registers: &mut Registers,
    shelf: &S,
    cells: &mut [i32],
    host: &mut H,
    budget: u64,
) -> Progress
    requires { length cells.old ≤ 1048576 }
    ensures ran { (count : ℕ) → Shows (run (S.Shelf.code shelf.now) budget (begun count (machine_of registers.old cells.old (H.Host.meaning host.old)))) result.standing (count + result.spent) (machine_of registers.new cells.new (H.Host.meaning host.new)) }
    ensures within { result.spent ≤ budget }
{
    let mut run = Run {
        registers,
        cells,
        host,
    };
    run.carry_on(shelf, budget)
}
