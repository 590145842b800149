// What the guest's software does, at VMPL 1, on the machine that is lent: it stores bytes in its pages, sets its pending byte and calls.
ghost use Rattle.std.specs.Prelude.{◌<◌};

use crate::row::{List, byte};
use call::Called;
use rules::{LaunchError, Plan, Refused, Registers};
use std::io::{self, Print, Stdout};

#[derive(Drop)]
pub struct Guest {
    out: Stdout,
    pub memory: [u8; 65536],
    pub table: [u8; 16],
    pub sheet: [u8; 512],
}

impl Guest {
    // Sixteen blank pages; VMPL 1 and EFER bit 12 make page 11 a VMSA that launch takes.
    pub fn new(out: Stdout) -> Guest {
        let mut memory = [0u8; 65536];
        memory[0xB0CA] = 1;
        memory[0xB0D1] = 0x10;
        Guest {
            out,
            memory,
            table: [0; 16],
            sheet: [0; 512],
        }
    }

    // The night has no store and no mark that is refused; it would be seen.
    fn seen(&self, done: Result<(), Refused>) -> io::Result<()> {
        match done {
            Ok(()) => Ok(()),
            Err(Refused) => self.out.write_all(b"A store or a mark is refused.\n"),
        }
    }

    // A store at a gPA.
    fn store(&mut self, gpa: usize, bytes: &[u8]) -> Result<(), Refused> {
        let (page, offset) = (gpa / 4096, gpa % 4096);
        monitor::steps::store(&mut self.memory, &self.table, 1, page, offset, bytes)
    }

    // A number of eight bytes, of which two are set.
    fn put(&mut self, gpa: usize, n: u32) -> Result<(), Refused> {
        self.store(gpa, &u64::from(n % 65536).to_le_bytes())
    }

    // A number, and an entry after it again and again. A script may have millions of stores: what is done is not asked after.
    pub fn write(&mut self, list: List) -> io::Result<()> {
        let gpa = list.gpa as usize;
        let done = self.put(gpa, list.number);
        self.seen(done)?;
        for i in 1..=list.count as usize {
            let done = self.put(gpa + 8 * i, list.entry);
            if done.is_err() {
                self.seen(done)?;
            }
        }
        Ok(())
    }

    // A record is marked as running.
    pub fn runs(&mut self, record: usize) -> io::Result<()> {
        let done = monitor::steps::mark(&mut self.sheet, record, 1);
        self.seen(done)
    }

    pub fn launch(&mut self, plan: Plan) -> Result<(), LaunchError> {
        monitor::launch::launch(&mut self.memory, &mut self.table, &mut self.sheet, 16, plan)
    }

    // A call by a record, whose pending byte is set first.
    pub fn call(&mut self, asked: Registers, caller: usize) -> io::Result<Called> {
        let done = self.store(self.calling(caller), &[1]);
        self.seen(done)?;
        let (memory, table, sheet) = (&mut self.memory, &mut self.table, &mut self.sheet);
        Ok(call::call(memory, table, sheet, asked, caller))
    }

    // The gPA of the calling page that a record names.
    fn calling(&self, record: usize) -> usize
        ensures { result < 0x10000000 }
    {
        let page = number(&self.sheet, 32 * (record % 16) + 12, 4) % 65536;
        page as usize * 4096
    }

    // Byte 1 of the startup's calling page.
    pub fn flag(&self) -> u8 {
        byte(&self.memory, self.calling(0) + 1)
    }
}

// The number that some bytes are, the lowest first. At most eight of them count, and what is not there is 0.
pub fn number(bytes: &[u8], at: usize, width: usize) -> u64 {
    let mut low = [0; 8];
    for (to, from) in low.iter_mut().zip(bytes.iter().skip(at).take(width)) {
        *to = *from;
    }
    u64::from_le_bytes(low)
}
