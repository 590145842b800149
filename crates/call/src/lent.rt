// The calls that ask to read a part of the machine, and to write no more than the rest: a machine that is held whole lends them its buffers.
ghost use Rattle.std.specs.Prelude.{◌≡◌};
ghost use Rattle.rules.specs.Words.{entries_a_call};
ghost use Rattle.rules.specs.Answers.{Answered};
ghost use Rattle.rules.specs.Lists;
ghost use Rattle.rules.specs.Calls;
ghost use Rattle.laws.specs.Tested.{Tested};
ghost use Rattle.machine.specs.Held.{bytes_of, lent_of, SameBuffers};

use machine::held::Machine;
use rules::{Code, ListCall};

pub(crate) fn list_call(machine: &mut Machine, call: ListCall, caller: usize, rcx: u64) -> Code
    requires { Tested (bytes_of machine.old) caller }
    ensures same { SameBuffers machine.old machine.new }
    ensures done { Rattle.rules.specs.Lists.list_call entries_a_call call caller rcx (lent_of machine.old)
        ≡ record { answer = result; after = lent_of machine.new } }
{
    let memory = &mut *machine.memory;
    let table = &mut *machine.table;
    let sheet = &mut *machine.sheet;
    list_calls::list_call(memory, table, sheet, call, caller, rcx)
}

pub(crate) fn create(machine: &mut Machine, caller: usize, rcx: u64, rdx: u64, r8: u64) -> Code
    requires { Tested (bytes_of machine.old) caller }
    ensures same { SameBuffers machine.old machine.new }
    ensures done { Rattle.rules.specs.Calls.create caller rcx rdx r8 (lent_of machine.old)
        ≡ record { answer = result; after = lent_of machine.new } }
{
    let memory = &mut *machine.memory;
    let table = &mut *machine.table;
    let sheet = &mut *machine.sheet;
    create_call::create(memory, table, sheet, caller, rcx, rdx, r8)
}

pub(crate) fn withdraw(machine: &mut Machine, caller: usize, rcx: u64) -> Code
    requires { Tested (bytes_of machine.old) caller }
    ensures same { SameBuffers machine.old machine.new }
    ensures done { Rattle.rules.specs.Calls.withdraw caller rcx (lent_of machine.old)
        ≡ record { answer = result; after = lent_of machine.new } }
{
    let memory = &mut *machine.memory;
    let table = &mut *machine.table;
    let sheet = &mut *machine.sheet;
    withdraw_call::withdraw(memory, table, sheet, caller, rcx)
}
