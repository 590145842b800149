// The line that a step finds: the maps of the pages and of the vCPUs, the flag, and the answer. It ends in '\n', which is a part of it, so that it can be
// compared with what the paper says.
ghost use Rattle.std.specs.Prelude.{◌<◌};

use crate::guest::{self, Guest};
use crate::row::{Look, byte};
use crate::show;
use std::fmt::{self, Write};

// The pages begin at column 0, and the vCPUs here.
const VCPUS: usize = 18;

const FLAG: usize = 36;

const ANSWER: usize = 41;

#[derive(Drop)]
pub struct Found {
    bytes: [u8; 128],
}

impl Found {
    pub fn new() -> Found {
        Found { bytes: [b' '; 128] }
    }

    // A step begins: it has no answer yet.
    pub fn clear(&mut self) {
        self.bytes[ANSWER] = b'\n';
    }

    // Where the line ends: at its '\n', or at the last byte.
    fn end(&self) -> usize
        ensures { result < 128 }
    {
        self.bytes.iter().position(|b| *b == b'\n').unwrap_or(127)
    }

    pub fn line(&self) -> &[u8] {
        let end = self.end();
        &self.bytes[..end + 1]
    }

    // Puts a text at the line's end, as much of it as there is room for.
    pub fn put(&mut self, text: &[u8]) {
        let end = self.end();
        let n = text.len().min(127 - end);
        self.bytes[end..end + n].copy_from_slice(&text[..n]);
        self.bytes[end + n] = b'\n';
    }

    // How the machine stands, under the ruler: the pages and the records, sixteen of each, and the flag.
    pub fn stands(&mut self, guest: &Guest) {
        for (to, b) in self.bytes.iter_mut().zip(&guest.table) {
            *to = show::mark(*b);
        }
        let (records, _) = guest.sheet.as_chunks::<32>();
        for (to, record) in self.bytes.iter_mut().skip(VCPUS).zip(records) {
            *to = show::vcpu_mark(record[0], record[2]);
        }
        self.bytes[FLAG] = guest.flag().wrapping_add(b'0');
    }

    // A number that the guest looks at after a call, after its name: one of two bytes is decimal.
    pub fn value(&mut self, bytes: &[u8], look: Look<'_>) -> fmt::Result {
        let n = guest::number(bytes, look.at, look.width);
        self.put(look.name);
        if look.width == 2 {
            write!(self, " {n}")
        } else {
            write!(self, " 0x{n:02x}")
        }
    }

    // Whether the line begins with what the paper says.
    pub fn begins(&self, said: &[u8]) -> bool {
        let line = self.line();
        said.iter().enumerate().all(|(i, b)| byte(line, i) == *b)
    }
}

impl Write for Found {
    fn write_str(&mut self, text: &str) -> fmt::Result {
        self.put(text.as_bytes());
        Ok(())
    }
}
