// A caller in Rattle: it lends its registers to `door::in_place::call` as one record, and finds them changed where they lie. It makes a machine of three
// pages and asks a Query. `lent` is proved to give what the call gives; for the rest the program promises nothing, and what it writes is held to the file
// stdout beside src. Nothing is assumed: what becomes of the bytes that it writes is outside the proofs.
#![tactic(auto)]

ghost use Rattle.rules.specs.Flat.{buffers};
ghost use Rattle.rules.specs.Promises.{CallPromise};

use call::Called;
use rules::{Outcome, Plan, Registers};
use std::io;

const QUERY: u64 = 6;

// The registers are lent, and the record that was lent is handed out: the promise is again the one of `call::call`.
fn lent(
    memory: &mut [u8],
    table: &mut [u8],
    sheet: &mut [u8],
    mut registers: Registers,
    caller: usize,
) -> Called
    ensures { CallPromise caller
        (record { registers = registers; machine = buffers memory.old table.old sheet.old })
        (record {
          answer = result.outcome;
          after = record {
            registers = result.registers;
            machine = buffers memory.new table.new sheet.new;
          };
        }) }
{
    let outcome = door::in_place::call(memory, table, sheet, &mut registers, caller);
    Called { outcome, registers }
}

fn main(rt: HostRuntime) -> io::Result<()> {
    // Three blank pages; VMPL 1 and EFER bit 12 make page 1 a VMSA that launch takes. Page 0 is the calling page, and page 2 the monitor's.
    let mut memory = [0u8; 12288];
    let mut table = [0u8; 3];
    let mut sheet = [0u8; 512];
    memory[0x10CA] = 1;
    memory[0x10D1] = 0x10;
    let plan = Plan {
        first: 2,
        count: 1,
        vmsa: 1,
        calling: 0,
        apic: 0,
        valid: 0,
    };
    let made = monitor::launch::launch(&mut memory, &mut table, &mut sheet, 3, plan);
    if made.is_err() {
        println!(rt; "The machine is not made.")?;
    }
    memory[0] = 1;
    let asked = Registers {
        rax: QUERY,
        rcx: 1,
        rdx: 0,
        r8: 0,
        r9: 0,
        reason: 0x403,
    };
    let Called { outcome, registers } = lent(&mut memory, &mut table, &mut sheet, asked, 0);
    match outcome {
        Outcome::Handled => println!(rt;
            "Query with RCX 1: handled. The record that was lent now has"
        )?,
        _ => println!(rt; "Query with RCX 1: not handled.")?,
    }
    println!(rt; "RAX 0x{:09x}", registers.rax)?;
    println!(rt; "RCX 0x{:09x}", registers.rcx)
}
