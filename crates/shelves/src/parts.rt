// An instruction as a number and three operands.
ghost use Rattle.std.specs.Prelude.{◌≡◌, ◌≤◌, length, take, Some, None, MatchResult};
ghost use Rattle.shelves.specs.Parts.{arity, instruction_of, parts_of};

use crate::groups::{fold_sign, unfold_sign};
use machine::instruction::Instruction;

// An instruction as its code number and its operands as they are written, unused ones 0.
#[derive(Clone, Copy)]
pub(crate) struct Parts {
    pub code: u8,
    pub operands: [u32; 3],
}

// A code number that no instruction has.
#[derive(Debug, Drop)]
pub(crate) struct UnknownCode;

// How many operands the instruction of a code number has.
pub(crate) fn arity(code: u8) -> usize
    ensures value { result ≡ arity code }
    ensures most { result ≤ 3 }
{
    match code {
        30 => 3,
        1 | 7 | 32 => 2,
        0 | 2 | 6 | 23 | 24 | 31 | 33 => 1,
        _ => 0,
    }
}

impl Parts {
    // The operands that are present.
    pub(crate) fn present(&self) -> &[u32]
        ensures value { result.now ≡ take (arity self.now.code) self.now.operands }
        ensures most { length result.now ≤ 3 }
    {
        &self.operands[..arity(self.code)]
    }
}

impl From<Instruction> for Parts {
    ghost from_gives = { λ i parts. parts ≡ parts_of i };

    fn from(instruction: Instruction) -> Self {
        let (code, operands) = match instruction {
            Instruction::Lit(value) => (0, [fold_sign(value), 0, 0]),
            Instruction::Var(level, at) => (1, [u32::from(level), at, 0]),
            Instruction::Off(offset) => (2, [offset, 0, 0]),
            Instruction::Ld => (3, [0, 0, 0]),
            Instruction::St => (4, [0, 0, 0]),
            Instruction::Stk => (5, [0, 0, 0]),
            Instruction::Copy(size) => (6, [size, 0, 0]),
            Instruction::Index(count, width) => (7, [count, width, 0]),
            Instruction::Add => (8, [0, 0, 0]),
            Instruction::Sub => (9, [0, 0, 0]),
            Instruction::Mul => (10, [0, 0, 0]),
            Instruction::Div => (11, [0, 0, 0]),
            Instruction::Mod => (12, [0, 0, 0]),
            Instruction::Neg => (13, [0, 0, 0]),
            Instruction::Not => (14, [0, 0, 0]),
            Instruction::And => (15, [0, 0, 0]),
            Instruction::Or => (16, [0, 0, 0]),
            Instruction::Lt => (17, [0, 0, 0]),
            Instruction::Le => (18, [0, 0, 0]),
            Instruction::Gt => (19, [0, 0, 0]),
            Instruction::Ge => (20, [0, 0, 0]),
            Instruction::Eq => (21, [0, 0, 0]),
            Instruction::Ne => (22, [0, 0, 0]),
            Instruction::Jmp(target) => (23, [target, 0, 0]),
            Instruction::Jf(target) => (24, [target, 0, 0]),
            Instruction::Geti => (25, [0, 0, 0]),
            Instruction::Getb => (26, [0, 0, 0]),
            Instruction::Puti => (27, [0, 0, 0]),
            Instruction::Putb => (28, [0, 0, 0]),
            Instruction::Nl => (29, [0, 0, 0]),
            Instruction::Zero(level, at, size) => (30, [u32::from(level), at, size]),
            Instruction::Frame(size) => (31, [size, 0, 0]),
            Instruction::Enter(level, target) => (32, [u32::from(level), target, 0]),
            Instruction::Leave(level) => (33, [u32::from(level), 0, 0]),
            Instruction::Dup => (34, [0, 0, 0]),
            Instruction::Pop => (35, [0, 0, 0]),
            Instruction::Stop => (36, [0, 0, 0]),
        };
        Parts { code, operands }
    }
}

impl TryFrom<Parts> for Instruction {
    type Error = UnknownCode;

    ghost try_from_gives = { λ parts r. MatchResult r (λ i. instruction_of parts.code parts.operands ≡ Some i) (λ _. instruction_of parts.code parts.operands ≡ None) };

    fn try_from(parts: Parts) -> Result<Self, UnknownCode> {
        let [a, b, c] = parts.operands;
        let level = a.min(255) as u8;
        Ok(match parts.code {
            0 => Instruction::Lit(unfold_sign(a)),
            1 => Instruction::Var(level, b),
            2 => Instruction::Off(a),
            3 => Instruction::Ld,
            4 => Instruction::St,
            5 => Instruction::Stk,
            6 => Instruction::Copy(a),
            7 => Instruction::Index(a, b),
            8 => Instruction::Add,
            9 => Instruction::Sub,
            10 => Instruction::Mul,
            11 => Instruction::Div,
            12 => Instruction::Mod,
            13 => Instruction::Neg,
            14 => Instruction::Not,
            15 => Instruction::And,
            16 => Instruction::Or,
            17 => Instruction::Lt,
            18 => Instruction::Le,
            19 => Instruction::Gt,
            20 => Instruction::Ge,
            21 => Instruction::Eq,
            22 => Instruction::Ne,
            23 => Instruction::Jmp(a),
            24 => Instruction::Jf(a),
            25 => Instruction::Geti,
            26 => Instruction::Getb,
            27 => Instruction::Puti,
            28 => Instruction::Putb,
            29 => Instruction::Nl,
            30 => Instruction::Zero(level, b, c),
            31 => Instruction::Frame(a),
            32 => Instruction::Enter(level, b),
            33 => Instruction::Leave(level),
            34 => Instruction::Dup,
            35 => Instruction::Pop,
            36 => Instruction::Stop,
            _ => return Err(UnknownCode),
        })
    }
}
