// Facts and tests of code, shelves, hosts and runs.
#![tactic(auto)]

ghost use Rattle.std.specs.Prelude.{◌≡◌};
ghost use Rattle.shelves.specs.Bytes.{encoded_all};
ghost use Rattle.machine_tests.specs.Sample.{bytes, sample};

use machine::instruction::Instruction;

// The code of {int x && @ x = 3; write x}.
pub fn sample_code() -> [Instruction; 11]
    ensures { result ≡ sample }
{
    [
        Instruction::Frame(3),
        Instruction::Pop,
        Instruction::Zero(0, 2, 1),
        Instruction::Var(0, 2),
        Instruction::Lit(3),
        Instruction::Stk,
        Instruction::Pop,
        Instruction::Var(0, 2),
        Instruction::Ld,
        Instruction::Puti,
        Instruction::Stop,
    ]
}

// Its bytes on a shelf of bytes.
pub fn sample_bytes() -> [u8; 20]
    ensures written { result ≡ bytes }
    ensures encoded { result ≡ encoded_all sample }
{
    [
        0x1f, 0x03, 0x23, 0x1e, 0x00, 0x02, 0x01, 0x01, 0x00, 0x02, 0x00, 0x06, 0x05, 0x23, 0x01,
        0x00, 0x02, 0x03, 0x1b, 0x24,
    ]
}

#[cfg(test)]
mod tests {
    use super::*;
    use hosts::numbers::NumberHost;
    use hosts::text_host::TextHost;
    use machine::fault::Fault;
    use machine::host::{Event, Host, NoRoom, Unreadable};
    use machine::shelf::{PutRefusal, Shelf};
    use running::advance::{Standing, advance};
    use running::registers::Registers;
    use shelves::byte_shelf::ByteShelf;
    use shelves::record::RecordShelf;

    fn put_sample(shelf: &mut ByteShelf) -> Result<(), PutRefusal> {
        for instruction in sample_code() {
            shelf.put(instruction)?;
        }
        Ok(())
    }

    fn next_item(host: &mut TextHost) -> Option<Result<i32, Unreadable>> {
        let item = host.look();
        host.take();
        item
    }

    // What two numbers and an operator leave in cell 0, or how the run fails.
    fn combined(x: i32, y: i32, operator: Instruction) -> (Standing, i32) {
        let mut slots = [Instruction::Stop; 6];
        let mut shelf = RecordShelf::new(&mut slots);
        for instruction in [
            Instruction::Lit(0),
            Instruction::Lit(x),
            Instruction::Lit(y),
            operator,
            Instruction::St,
            Instruction::Stop,
        ] {
            let _ = shelf.put(instruction);
        }
        let mut registers = Registers::new();
        let mut cells = [7; 1];
        let mut output = [0; 0];
        let mut host = NumberHost::new(&[], &mut output);
        let progress = advance(&mut registers, &shelf, &mut cells, &mut host, 10);
        (progress.standing, cells[0])
    }

    #[test]
    fn sample_fills_twenty_bytes(rt: HostRuntime) {
        let mut bytes = [0; 20];
        let mut shelf = ByteShelf::new(&mut bytes);
        assert_eq!(rt; put_sample(&mut shelf), Ok(()));
        assert_eq!(rt; shelf.count(), 11);
        assert_eq!(rt; shelf.bytes(), sample_bytes().as_slice());
        assert_eq!(rt; shelf.fetch(2), Some(Instruction::Zero(0, 2, 1)));
        assert_eq!(rt; shelf.fetch(11), None);
    }

    #[test]
    fn sample_overfills_nineteen_bytes(rt: HostRuntime) {
        let mut bytes = [0; 19];
        let mut shelf = ByteShelf::new(&mut bytes);
        assert_eq!(rt; put_sample(&mut shelf), Err(PutRefusal::Full));
        assert_eq!(rt; shelf.count(), 10);
    }

    #[test]
    fn operands_take_one_to_five_groups(rt: HostRuntime) {
        let mut bytes = [0; 32];
        let mut shelf = ByteShelf::new(&mut bytes);
        assert_eq!(rt; shelf.cost(Instruction::Off(127)), 2);
        assert_eq!(rt; shelf.cost(Instruction::Off(128)), 3);
        assert_eq!(rt; shelf.cost(Instruction::Off(2147483647)), 6);
        assert_eq!(rt; shelf.cost(Instruction::Lit(-64)), 2);
        assert_eq!(rt; shelf.cost(Instruction::Lit(-2147483648)), 6);
        assert_eq!(rt; shelf.put(Instruction::Lit(2147483647)), Ok(()));
        assert_eq!(rt; shelf.put(Instruction::Lit(-2147483648)), Ok(()));
        assert_eq!(rt;
            shelf.put(Instruction::Off(2147483648)),
            Err(PutRefusal::Unlawful)
        );
        assert_eq!(rt; shelf.fetch(0), Some(Instruction::Lit(2147483647)));
        assert_eq!(rt; shelf.fetch(1), Some(Instruction::Lit(-2147483648)));
    }

    #[test]
    fn text_is_read_in_parts(rt: HostRuntime) {
        let mut output = [0; 0];
        let mut host = TextHost::new(b"12  -7\r\n+0 007 -2147483649 -2147483648", &mut output);
        assert_eq!(rt; next_item(&mut host), Some(Ok(12)));
        assert_eq!(rt; next_item(&mut host), Some(Ok(-7)));
        assert_eq!(rt; next_item(&mut host), Some(Ok(0)));
        assert_eq!(rt; next_item(&mut host), Some(Err(Unreadable)));
        assert_eq!(rt; next_item(&mut host), Some(Err(Unreadable)));
        assert_eq!(rt; next_item(&mut host), Some(Ok(-2147483648)));
        assert_eq!(rt; next_item(&mut host), None);
    }

    #[test]
    fn events_are_written_as_text(rt: HostRuntime) {
        let mut output = [0; 22];
        let mut host = TextHost::new(b"", &mut output);
        assert_eq!(rt; host.say(Event::Int(-2147483648)), Ok(()));
        assert_eq!(rt; host.say(Event::Line), Ok(()));
        assert_eq!(rt; host.say(Event::Bool(true)), Ok(()));
        assert_eq!(rt; host.say(Event::Bool(false)), Ok(()));
        assert_eq!(rt; host.say(Event::Int(10)), Err(NoRoom));
        assert_eq!(rt; host.say(Event::Int(0)), Ok(()));
        assert_eq!(rt; host.output(), b"-2147483648\ntruefalse0".as_slice());
    }

    #[test]
    fn least_int_is_divided(rt: HostRuntime) {
        let (standing, _) = combined(-2147483648, -1, Instruction::Div);
        assert_eq!(rt; standing, Standing::Failed(Fault::Overflow));
        assert_eq!(rt; Fault::Overflow.number(), 22);
        let (standing, rest) = combined(-2147483648, -1, Instruction::Mod);
        assert_eq!(rt; standing, Standing::Finished);
        assert_eq!(rt; rest, 0);
    }
}
