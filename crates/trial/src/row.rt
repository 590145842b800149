// The rows of the night's script. A row is a line of bytes, its '\n' with it: a word in six columns, of which the first letter counts, then words, or
// numbers of four hexadecimal digits, a blank after each. Any bytes are taken: what is not there is 0, and an unknown letter makes a note.
ghost use Rattle.std.specs.Prelude.{◌<◌};

use rules::{Plan, Registers};

#[derive(Clone, Copy)]
pub enum Row<'a> {
    Part(&'a [u8]),
    Asks(&'a [u8]),
    Write(List),
    Runs { record: usize },
    Start(Plan),
    Call { asked: Registers, caller: usize },
    Value(Look<'a>),
    Byte(Look<'a>),
    Then(&'a [u8]),
    Note,
}

// A number at a gPA, and an entry after it again and again.
#[derive(Clone, Copy)]
pub struct List {
    pub gpa: u32,
    pub number: u32,
    pub entry: u32,
    pub count: u32,
}

// A place, how many bytes are looked at there, and the name that is said before them.
#[derive(Clone, Copy)]
pub struct Look<'a> {
    pub at: usize,
    pub width: usize,
    pub name: &'a [u8],
}

impl<'a> From<&'a [u8]> for Row<'a> {
    fn from(text: &'a [u8]) -> Row<'a> {
        let words = after(text, 6);
        match byte(text, 0) {
            b'p' => Row::Part(words),
            b'a' => Row::Asks(words),
            b'w' => Row::Write(List::from(text)),
            b'r' => Row::Runs {
                record: field(text, 0) as usize,
            },
            b's' => Row::Start(plan(text)),
            b'c' => Row::Call {
                asked: asked(text),
                caller: field(text, 4) as usize,
            },
            b'v' => Row::Value(Look::from(text)),
            b'b' => Row::Byte(Look::from(text)),
            b't' => Row::Then(words),
            _ => Row::Note,
        }
    }
}

impl From<&[u8]> for List {
    fn from(text: &[u8]) -> List {
        List {
            gpa: field(text, 0),
            number: field(text, 1),
            entry: field(text, 2),
            count: field(text, 3),
        }
    }
}

impl<'a> From<&'a [u8]> for Look<'a> {
    fn from(text: &'a [u8]) -> Look<'a> {
        Look {
            at: field(text, 0) as usize,
            width: field(text, 1) as usize,
            name: after(text, 16),
        }
    }
}

fn plan(text: &[u8]) -> Plan {
    Plan {
        first: field(text, 0) as usize,
        count: field(text, 1) as usize,
        vmsa: field(text, 2) as usize,
        calling: field(text, 3) as usize,
        apic: field(text, 4),
        valid: field(text, 5) as usize,
    }
}

fn asked(text: &[u8]) -> Registers {
    Registers {
        rax: u64::from(field(text, 0)),
        rcx: u64::from(field(text, 1)),
        rdx: u64::from(field(text, 2)),
        r8: u64::from(field(text, 3)),
        r9: 0,
        reason: 0x403,
    }
}

// What stands after some columns; a shorter text whole.
fn after(text: &[u8], columns: usize) -> &[u8] {
    text.get(columns..).unwrap_or(text)
}

// A byte, or 0 past the end.
pub fn byte(text: &[u8], at: usize) -> u8 {
    text.get(at).copied().unwrap_or(0)
}

// A hexadecimal digit; of another byte what comes of the same sum.
fn digit(text: &[u8], at: usize) -> u32
    ensures { result < 64 }
{
    let b = byte(text, at);
    u32::from(b % 16 + 9 * (b / 64))
}

// A number of four digits.
fn field(text: &[u8], number: u8) -> u32
    ensures { result < 300000 }
{
    let at = 6 + 5 * usize::from(number);
    4096 * digit(text, at)
        + 256 * digit(text, at + 1)
        + 16 * digit(text, at + 2)
        + digit(text, at + 3)
}
