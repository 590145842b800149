// What a person sees of the night: the mark of a page and of a vCPU, and each answer by number and name.
ghost use Rattle.std.specs.Prelude.{◌≡◌};
ghost use Rattle.trial.specs.Marks.{mark_of};

use call::Called;
use rules::{LaunchError, Outcome, Registers};
use std::fmt;

pub const LEGEND: &str =
    "A night on sixteen pages. Each step has what is asked, what the paper (document 01) says comes of it, and what came of it.

The pages, a mark each:
  1 2 3  plain, valid, permitted to VMPL 1, to 1 and 2, to 1, 2 and 3
  .      plain, not valid
  C      a calling area
  M      the monitor's
  f u    the pool's, free and in use
  V      a VMSA
  ?      a byte that is not right for its owner
The vCPUs, a mark a record:
  s r    live, stopped and running
  .      none
  ?      any other
The flag is 1 if a pool page is free.
";

// A ruler over the maps of a part of the night.
pub const RULER: &str = "                 pages             vCPUs
                 0123456789ABCDEF  0123456789ABCDEF  flag  answer
";

// The mark of a page: a letter where its byte is right for its owner, on a machine whose startup vCPU has VMPL 1.
#[tactic(auto, unfolding(crate::specs::Marks::mark_of, crate::specs::Marks::right, crate::specs::Marks::unknown, crate::specs::Marks::plain_letter, crate::specs::Marks::letter, rules::specs::Sound::well_permitted, rules::specs::Machine::owner, rules::specs::Machine::valid, rules::specs::Machine::permitted, rules::specs::Words::bits, rules::specs::Words::bit, rules::specs::Words::between,))]
pub fn mark(b: u8) -> u8
    ensures { result ≡ mark_of b }
{
    match b {
        0x00 => b'.',
        0x18 => b'1',
        0x38 => b'2',
        0x78 => b'3',
        0x19 | 0x39 | 0x59 | 0x79 => b'C',
        0x0A => b'M',
        0x0B => b'f',
        0x0C => b'u',
        0x0D => b'V',
        _ => b'?',
    }
}

// The mark of a record, by its bytes +0 and +2.
pub fn vcpu_mark(live: u8, running: u8) -> u8 {
    match (live, running) {
        (0, 0) => b'.',
        (1, 0) => b's',
        (1, 1) => b'r',
        _ => b'?',
    }
}

// The paper's name for a code. All are refusals but success and incomplete.
fn name(rax: u64) -> &'static str {
    match rax {
        0 => "success",
        0x40000001 => "refused: one more page needed",
        0x80000000 => "incomplete",
        0x80000001 => "refused: protocol not known",
        0x80000002 => "refused: call not known",
        0x80000003 => "refused: ADDRESS",
        0x80000004 => "refused: pending byte 2 to 255",
        0x80000005 => "refused: PARAMETER",
        0x80000006 => "refused: REQUEST",
        0x80001003 => "refused: in use",
        0x80001006 => "refused: size mismatch",
        0x80001010 => "refused: validity did not change",
        _ => "a code that the paper does not have",
    }
}

pub fn launched(answer: Result<(), LaunchError>) -> &'static str {
    match answer {
        Ok(()) => "0 made",
        Err(LaunchError::WrongSize) => "1 refused: a size wrong",
        Err(LaunchError::OutOfRange) => "2 refused: out of range",
        Err(LaunchError::AreasMeet) => "3 refused: two areas meet",
        Err(LaunchError::UnfitVmsa) => "4 refused: VMSA unfit",
    }
}

// What a call came back with: where it was handled, its code by number and name; and RCX after Query and vTOM, the calls from 6 on.
#[derive(Clone, Copy)]
pub struct Answer {
    pub asked: Registers,
    pub called: Called,
}

impl fmt::Display for Answer {
    fn fmt<W: fmt::Write>(&self, f: &mut fmt::Formatter<W>) -> fmt::Result {
        let after = self.called.registers;
        match self.called.outcome {
            Outcome::Handled => write!(f, "0x{:08x} {}", after.rax, name(after.rax))?,
            Outcome::NoCall => write!(f, "outcome 1, no call")?,
            Outcome::Gone => write!(f, "outcome 2, gone")?,
            Outcome::BadMachine => write!(f, "outcome 3, bad machine")?,
        }
        if self.asked.rax >= 6 {
            write!(f, ", RCX 0x{:016x}", after.rcx)?;
        }
        Ok(())
    }
}

// The steps so far, and how many of them came out as the paper says.
#[derive(Clone, Copy, Default)]
pub struct Tally {
    pub steps: u64,
    pub right: u64,
}

impl Tally {
    pub fn count(&mut self, right: bool) {
        self.steps = self.steps.wrapping_add(1);
        if right {
            self.right = self.right.wrapping_add(1);
        }
    }
}

impl fmt::Display for Tally {
    fn fmt<W: fmt::Write>(&self, f: &mut fmt::Formatter<W>) -> fmt::Result {
        write!(
            f,
            "{} of {} steps came out as the paper says.",
            self.right, self.steps
        )
    }
}
