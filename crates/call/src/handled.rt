// Which call is made: the pending byte, the protocol, and the eight that bits 31:0 of RAX tell apart. Each hands over to the crate of its call.
ghost use Rattle.std.specs.Prelude.{◌≡◌};
ghost use Rattle.rules.specs.Answers.{Answered};
ghost use Rattle.rules.specs.Call;
ghost use Rattle.rules.specs.Flat.{buffers, parted};
ghost use Rattle.laws.specs.Tested.{Tested};
ghost use Rattle.machine.specs.Held.{bytes_of, lent_of, SameBuffers};
ghost use Rattle.call.specs.Asked.{posed};

use crate::lent;
use machine::held::Machine;
use pages::PAGE_SIZE;
use rules::{Code, ListCall, Progress, Refusal, Registers};
use sheet::Sheet;
use sheet::record::vcpu;

// The call that bits 31:0 of RAX name.
#[tactic(auto, using(crate::proofs::Chosen::named), unfolding(rules::specs::Call::dispatch, rules::specs::Call::on_lent, rules::specs::Call::on_rcx, rules::specs::Call::with_rcx, rules::specs::Machine::with_lent))]
pub fn dispatch(machine: &mut Machine, g: &mut Registers, caller: usize) -> Code
    requires { Tested (bytes_of machine.old) caller }
    ensures same { SameBuffers machine.old machine.new }
    ensures done { Rattle.rules.specs.Call.dispatch caller (posed g.old machine.old)
        ≡ record { answer = result; after = posed g.new machine.new } }
{
    let rcx = g.rcx;
    let number = (g.rax % 0x100000000) as u32;
    match number {
        0 => remap_call::remap(machine, caller, rcx),
        1 => lent::list_call(machine, ListCall::Pvalidate, caller, rcx),
        2 => lent::create(machine, caller, rcx, g.rdx, g.r8),
        3 => delete_call::delete(machine, caller, rcx),
        4 => lent::list_call(machine, ListCall::Deposit, caller, rcx),
        5 => lent::withdraw(machine, caller, rcx),
        6 => {
            g.rcx = query_calls::queried(rcx);
            Ok(Progress::Success)
        }
        7 => query_calls::vtom(&mut g.rcx),
        8.. => Err(Refusal::UnknownCall),
    }
}

// The byte that says that a call is made.
#[tactic(auto, unfolding(rules::specs::Call::pending, rules::specs::Machine::page_at, rules::specs::Machine::vcpu, rules::specs::Machine::record_at, rules::specs::Flat::parted, rules::specs::Words::page_size))]
pub fn pending(memory: &[u8], table: &[u8], sheet: &Sheet, caller: usize) -> u8
    requires { Tested (buffers memory.now table.now sheet.now) caller }
    ensures { result ≡ Rattle.rules.specs.Call.pending caller (parted (buffers memory.now table.now sheet.now)) }
{
    parts::byte(memory, PAGE_SIZE, vcpu(sheet, caller).calling as usize, 0)
}

// The same of a machine that is held whole.
pub(crate) fn pending_of(machine: &Machine, caller: usize) -> u8
    requires { Tested (bytes_of machine.now) caller }
    ensures { result ≡ Rattle.rules.specs.Call.pending caller (lent_of machine.now) }
{
    pending(machine.memory, machine.table, machine.sheet, caller)
}

// First the pending byte, then the protocol, then the call.
#[tactic(auto, using(crate::proofs::Chosen::protocol_is), unfolding(rules::specs::Call::handle, rules::specs::Answers::refuse))]
pub fn handle(machine: &mut Machine, g: &mut Registers, caller: usize) -> Code
    requires { Tested (bytes_of machine.old) caller }
    ensures same { SameBuffers machine.old machine.new }
    ensures done { Rattle.rules.specs.Call.handle caller (posed g.old machine.old)
        ≡ record { answer = result; after = posed g.new machine.new } }
{
    if pending_of(machine, caller) >= 2 {
        return Err(Refusal::BadPending);
    }
    if g.rax / 0x100000000 != 0 {
        return Err(Refusal::UnknownProtocol);
    }
    dispatch(machine, g, caller)
}
