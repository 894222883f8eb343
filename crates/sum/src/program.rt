// The code of {int r; proc f(int n, int & s) {if n > 0 {@ s = s + n; call f(n - 1, s)}} && call f(3, r); write r}.
use machine::instruction::Instruction;
use machine::shelf::{PutRefusal, Shelf};

// Where the procedure begins, and where it leaves.
const PROCEDURE: u32 = 17;

const LEAVING: u32 = 46;

// The outermost block.
fn outermost() -> [Instruction; 17] {
    [
        Instruction::Frame(3),
        Instruction::Pop,
        Instruction::Zero(0, 2, 1),
        Instruction::Frame(4),
        Instruction::Dup,
        Instruction::Off(2),
        Instruction::Lit(3),
        Instruction::St,
        Instruction::Dup,
        Instruction::Off(3),
        Instruction::Var(0, 2),
        Instruction::St,
        Instruction::Enter(1, PROCEDURE),
        Instruction::Var(0, 2),
        Instruction::Ld,
        Instruction::Puti,
        Instruction::Stop,
    ]
}

// n > 0, and s = s + n.
fn addition() -> [Instruction; 15] {
    [
        Instruction::Var(1, 2),
        Instruction::Ld,
        Instruction::Lit(0),
        Instruction::Gt,
        Instruction::Jf(LEAVING),
        Instruction::Var(1, 3),
        Instruction::Ld,
        Instruction::Var(1, 3),
        Instruction::Ld,
        Instruction::Ld,
        Instruction::Var(1, 2),
        Instruction::Ld,
        Instruction::Add,
        Instruction::Stk,
        Instruction::Pop,
    ]
}

// The call of f(n - 1, s), and the end of the procedure.
fn recursion() -> [Instruction; 15] {
    [
        Instruction::Frame(4),
        Instruction::Dup,
        Instruction::Off(2),
        Instruction::Var(1, 2),
        Instruction::Ld,
        Instruction::Lit(1),
        Instruction::Sub,
        Instruction::St,
        Instruction::Dup,
        Instruction::Off(3),
        Instruction::Var(1, 3),
        Instruction::Ld,
        Instruction::St,
        Instruction::Enter(1, PROCEDURE),
        Instruction::Leave(1),
    ]
}

// Puts the whole code on a shelf.
pub fn put_all<S: Shelf>(shelf: &mut S) -> Result<(), PutRefusal> {
    shelf.clear();
    for instruction in outermost().into_iter().chain(addition()).chain(recursion()) {
        shelf.put(instruction)?;
    }
    Ok(())
}
