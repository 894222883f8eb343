// An event as text.
ghost use Rattle.std.specs.Prelude.{◌≡◌, ◌≤◌, decimal, length};
ghost use Rattle.tables.specs.Items.{HasRoom, Extended};
ghost use Rattle.hosts.specs.Texts.{text_of};

use machine::host::Event;
use tables::table::Table;

// How many digits a number has.
fn digits(n: u32) -> usize
    ensures value { result ≡ length (decimal n) }
    ensures least { 1 ≤ result }
    ensures most { result ≤ 10 }
{
    if n < 10 { 1 } else { digits(n / 10) + 1 }
}

// How many bytes an event takes.
pub(crate) fn text_length(event: Event) -> usize
    ensures value { result ≡ length (text_of event) }
    ensures least { 1 ≤ result }
{
    match event {
        Event::Int(value) if value < 0 => 1 + digits(value.unsigned_abs()),
        Event::Int(value) => digits(value.unsigned_abs()),
        Event::Bool(true) => 4,
        Event::Bool(false) => 5,
        Event::Line => 1,
    }
}

// Adds the digits of a number.
fn add_decimal(text: &mut Table<u8>, n: u32)
    requires { HasRoom text.old (decimal n) }
    ensures { Extended text.old (decimal n) text.new }
{
    if n < 10 {
        text.push(b'0' + n as u8);
        return;
    }
    add_decimal(text, n / 10);
    text.push(b'0' + (n % 10) as u8);
}

// Adds an int in decimal, a bool by its name, a line feed.
pub(crate) fn add_event(text: &mut Table<u8>, event: Event)
    requires { HasRoom text.old (text_of event) }
    ensures written { Extended text.old (text_of event) text.new }
    ensures some { 1 ≤ length (text_of event) }
{
    match event {
        Event::Int(value) if value < 0 => {
            text.push(b'-');
            add_decimal(text, value.unsigned_abs());
        }
        Event::Int(value) => add_decimal(text, value.unsigned_abs()),
        Event::Bool(value) => text.extend_from_slice(if value { b"true" } else { b"false" }),
        Event::Line => {
            text.push(b'\n');
        }
    }
}
