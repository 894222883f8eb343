// Why a run ends before its Stop.
ghost use Rattle.std.specs.Prelude.{◌≡◌};
ghost use Rattle.machine.specs.declared.fault.Fault.TheVariants.{NoRoom, Unreadable};
ghost use Rattle.machine.specs.Faults.{fault_number};

use crate::host;

#[derive(Clone, Copy, PartialEq, Eq, Debug)]
pub enum Fault {
    // An index outside its array.
    Bounds,
    // A result outside 32 bits.
    Overflow,
    ZeroDivisor,
    // No item waits to be read.
    NoItem,
    // The item is not of the kind that is read.
    Unreadable,
    // The output does not fit.
    NoRoom,
    // The open frames need more cells than there are.
    NoMemory,
    // The next instruction is past the code.
    PastCode,
    // Too few operands, or more than 128.
    Operands,
    // A cell outside memory, or an address outside 0 to 2,147,483,647.
    Address,
    // A negative link.
    Link,
}

impl Fault {
    // The fault's number in the list of faults.
    pub fn number(self) -> u8
        ensures { result ≡ fault_number self }
    {
        match self {
            Fault::Bounds => 21,
            Fault::Overflow => 22,
            Fault::ZeroDivisor => 23,
            Fault::NoItem => 24,
            Fault::Unreadable => 25,
            Fault::NoRoom => 26,
            Fault::NoMemory => 27,
            Fault::PastCode => 41,
            Fault::Operands => 42,
            Fault::Address => 43,
            Fault::Link => 44,
        }
    }
}

impl From<host::Unreadable> for Fault {
    ghost from_gives = { λ _ fault. fault ≡ Unreadable };

    fn from(_: host::Unreadable) -> Self {
        Self::Unreadable
    }
}

impl From<host::NoRoom> for Fault {
    ghost from_gives = { λ _ fault. fault ≡ NoRoom };

    fn from(_: host::NoRoom) -> Self {
        Self::NoRoom
    }
}
