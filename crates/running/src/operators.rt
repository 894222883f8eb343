// What an operator makes of its operands: a value of 32 bits, or a fault.
ghost use Rattle.tiny.specs.Operators as Rule;
ghost use Rattle.machine.specs.Ints.{binary_of, unary_of};
ghost use Rattle.machine.specs.Faults.{Answered};

use machine::fault::Fault;

pub(crate) fn negate(x: i32) -> Result<i32, Fault>
    ensures { Answered (unary_of Rule.neg x) result }
{
    x.checked_neg().ok_or(Fault::Overflow)
}

pub(crate) fn add(x: i32, y: i32) -> Result<i32, Fault>
    ensures { Answered (binary_of Rule.add x y) result }
{
    x.checked_add(y).ok_or(Fault::Overflow)
}

pub(crate) fn subtract(x: i32, y: i32) -> Result<i32, Fault>
    ensures { Answered (binary_of Rule.sub x y) result }
{
    x.checked_sub(y).ok_or(Fault::Overflow)
}

pub(crate) fn multiply(x: i32, y: i32) -> Result<i32, Fault>
    ensures { Answered (binary_of Rule.mul x y) result }
{
    x.checked_mul(y).ok_or(Fault::Overflow)
}

// The quotient without its fraction.
pub(crate) fn divide(x: i32, y: i32) -> Result<i32, Fault>
    ensures { Answered (binary_of Rule.quot x y) result }
{
    if y == 0 {
        return Err(Fault::ZeroDivisor);
    }
    x.checked_div(y).ok_or(Fault::Overflow)
}

// The remainder, which has the sign of x.
pub(crate) fn remainder(x: i32, y: i32) -> Result<i32, Fault>
    ensures { Answered (binary_of Rule.rem x y) result }
{
    if y == 0 {
        return Err(Fault::ZeroDivisor);
    }
    Ok(x.wrapping_rem(y))
}
