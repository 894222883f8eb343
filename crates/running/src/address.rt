// Addresses of cells.
ghost use Rattle.std.specs.Prelude.{◌≡◌, ◌<◌, ℕ, pos};
ghost use Rattle.machine.specs.Machine.{made};
ghost use Rattle.running.specs.Settling.{Settles};

use machine::fault::Fault;
use machine::instruction::MAX_OPERAND;
use std::marker::Model;

// An address of a cell, below 2 ^ 31.
#[derive(Clone, Copy)]
pub struct Address {
    number: u32,
}

impl Model for Address {
    ghost Value = { ℕ };

    ghost view = { λ a. a.number };

    ghost invariant = { λ a. a.number < 2147483648 };

    ghost inverse = { λ n. record { number = n } };
}

impl Address {
    // The address of a number that is below 2 ^ 31.
    pub fn new(number: u32) -> Self
        requires { number < 2147483648 }
        ensures { result ≡ number }
    {
        Address { number }
    }

    // Its number.
    pub fn number(self) -> u32
        ensures { result ≡ self }
    {
        self.number
    }
}

impl TryFrom<i64> for Address {
    type Error = Fault;

    ghost try_from_gives = { λ value r. Settles (made value) r };

    fn try_from(value: i64) -> Result<Self, Fault> {
        match u32::try_from(value) {
            Ok(number) if number <= MAX_OPERAND => Ok(Address::new(number)),
            _ => Err(Fault::Address),
        }
    }
}

impl From<Address> for i32 {
    ghost from_gives = { λ address r. r ≡ pos address };

    fn from(address: Address) -> i32 {
        address.number as i32
    }
}
