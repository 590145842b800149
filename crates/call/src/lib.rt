// A call, whole: the outcomes in their order, which call is made, and the last writes. `call` is public: it has no `requires`, and its promise
// is one equation with the definition on flat bytes, over all that was lent. Nothing is assumed.
#![tactic(auto)]

pub mod handled;
pub mod last;
mod lent;

ghost use Rattle.std.specs.Prelude.{◌≡◌, ◌<◌};
ghost use Rattle.rules.specs.Words.{records};
ghost use Rattle.rules.specs.Answers.{Answered, code_number};
ghost use Rattle.rules.specs.Call;
ghost use Rattle.rules.specs.Call.{Posed};
ghost use Rattle.rules.specs.Flat.{buffers};
ghost use Rattle.rules.specs.Promises.{CallPromise};
ghost use Rattle.laws.specs.Tested.{Tested};
ghost use Rattle.machine.specs.Held.{bytes_of, SameBuffers};
ghost use Rattle.call.specs.Asked.{posed};

use machine::held::Machine;
use rules::{Code, Outcome, Registers};
use sheet::SHEET_SIZE;
use sheet::record::vcpu;

// The paper's number for a code.
#[tactic(auto, unfolding(rules::specs::Answers::code_number))]
pub fn number_of(code: Code) -> u64
    ensures { result ≡ code_number code }
{
    match code {
        Ok(progress) => progress as u64,
        Err(refusal) => refusal as u64,
    }
}

// What a call comes back with, and the registers after it.
#[derive(Clone, Copy)]
pub struct Called {
    pub outcome: Outcome,
    pub registers: Registers,
}

// Gone where the caller's record is live no more: it finds its registers as they were before. Else handled.
#[tactic(auto, unfolding(rules::specs::Call::finish, rules::specs::Machine::is_live, rules::specs::Machine::record_at, rules::specs::Machine::with_lent, rules::specs::Call::with_rax, rules::specs::Flat::parted))]
fn finish(
    machine: &mut Machine,
    g: &mut Registers,
    before: Registers,
    code: Code,
    caller: usize,
) -> Outcome
    requires { caller < records }
    ensures same { SameBuffers machine.old machine.new }
    ensures done { Rattle.rules.specs.Call.finish caller before (record { answer = code; after = posed g.old machine.old })
        ≡ record { answer = result; after = posed g.new machine.new } }
{
    let memory = &mut *machine.memory;
    let table = &mut *machine.table;
    let sheet = &mut *machine.sheet;
    if vcpu(sheet, caller).live != 1 {
        last::set_flag(memory, table, sheet);
        *g = before;
        return Outcome::Gone;
    }
    last::clear_pending(memory, table, sheet, caller);
    last::set_flag(memory, table, sheet);
    g.rax = number_of(code);
    Outcome::Handled
}

// The outcomes, once the machine is known to be none of the bad ones.
#[tactic(auto, using(laws::proofs::Tested::caller_below), unfolding(rules::specs::Call::call, rules::specs::Call::no_call, rules::specs::Call::bad_machine, rules::specs::Answers::refuse))]
fn come_back(machine: &mut Machine, g: &mut Registers, caller: usize) -> Outcome
    requires { Tested (bytes_of machine.old) caller }
    ensures same { SameBuffers machine.old machine.new }
    ensures done { Rattle.rules.specs.Call.call caller (posed g.old machine.old)
        ≡ record { answer = result; after = posed g.new machine.new } }
{
    if handled::pending_of(machine, caller) == 0 || g.reason != 0x403 {
        return Outcome::NoCall;
    }
    let before = *g;
    let code = handled::handle(machine, g, caller);
    finish(machine, g, before, code, caller)
}

// Outcomes that leave the registers.
fn left(outcome: Outcome, registers: Registers) -> Called
    ensures { result ≡ record { outcome = outcome; registers = registers } }
{
    Called { outcome, registers }
}

// A call by a vCPU, with its registers.
#[tactic(auto, using(crate::proofs::Outcomes::call_unsized), unfolding(rules::specs::Promises::CallPromise, rules::specs::Flat::well_sized, rules::specs::Flat::sheet_sized, rules::specs::Words::record_size, rules::specs::Words::records))]
pub fn call(
    memory: &mut [u8],
    table: &mut [u8],
    sheet: &mut [u8],
    g: Registers,
    caller: usize,
) -> Called
    ensures { CallPromise caller
        (record { registers = g; machine = buffers memory.old table.old sheet.old })
        (record {
          answer = result.outcome;
          after = record {
            registers = result.registers;
            machine = buffers memory.new table.new sheet.new;
          };
        }) }
{
    if !pages::memory::fits(table.len(), memory.len()) {
        return left(Outcome::BadMachine, g);
    }
    let Some(sheet) = sheet.as_mut_array::<SHEET_SIZE>() else {
        return left(Outcome::BadMachine, g);
    };
    if sheet::shape::bad_sheet(sheet, table.len(), caller) {
        return left(Outcome::BadMachine, g);
    }
    let mut machine = Machine {
        memory,
        table,
        sheet,
    };
    let mut registers = g;
    let outcome = come_back(&mut machine, &mut registers, caller);
    Called { outcome, registers }
}
