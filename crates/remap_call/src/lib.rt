// 0 Remap: the caller's calling area moves to another page. Nothing is assumed.
#![tactic(auto)]

ghost use Rattle.std.specs.Prelude.{◌≡◌, ◌<◌, cond, eqb, length};
ghost use Rattle.rules.specs.Words.{records};
ghost use Rattle.rules.specs.Answers.{Answered};
ghost use Rattle.rules.specs.Machine.{own, plain, change};
ghost use Rattle.rules.specs.Calls.{remap, remapped};
ghost use Rattle.laws.specs.Tested.{Tested};
ghost use Rattle.machine.specs.Held.{bytes_of, lent_of, SameBuffers};

use machine::held::Machine;
use pages::byte::{Owner, is_owned};
use pages::gpa::Gpa;
use rules::{Code, Progress, Refusal};

// The old page turns plain, unless it is the new one too.
fn leave(machine: &mut Machine, old: usize, new: usize)
    requires { old < length machine.old.table.now }
    ensures same { SameBuffers machine.old machine.new }
    ensures done { lent_of machine.new
        ≡ cond (eqb old new) (lent_of machine.old) (change (own plain) old (lent_of machine.old)) }
{
    if old != new {
        machine.set_owner(old, Owner::Plain);
    }
}

// The old page turns plain, the new one calling and named by the record, and byte 0 of each is 0. They may be the same.
#[tactic(auto, using(laws::proofs::FlatSteps::sizes), unfolding(rules::specs::Calls::remapped, rules::specs::Words::page_size, rules::specs::Words::most_pages))]
fn move_area(machine: &mut Machine, caller: usize, old: usize, new: usize)
    requires caller { caller < records }
    requires old { old < length machine.old.table.now }
    requires new { new < length machine.old.table.now }
    ensures same { SameBuffers machine.old machine.new }
    ensures done { lent_of machine.new ≡ remapped caller old new (lent_of machine.old) }
{
    leave(machine, old, new);
    machine.set_owner(new, Owner::CallingArea);
    machine.set_calling(caller, new as u32);
    machine.write_byte(old, 0, 0);
    machine.write_byte(new, 0, 0);
}

#[tactic(auto, using(machine::proofs::Tested::caller_in, machine::proofs::Tested::area_in), unfolding(rules::specs::Calls::remap, rules::specs::Answers::refuse, rules::specs::Machine::usable, rules::specs::Machine::below, rules::specs::Machine::N, rules::specs::Machine::owned_by, rules::specs::Machine::table_byte, rules::specs::Machine::page_of, rules::specs::Words::page_size, rules::specs::Flat::parted))]
pub fn remap(machine: &mut Machine, caller: usize, rcx: u64) -> Code
    requires { Tested (bytes_of machine.old) caller }
    ensures same { SameBuffers machine.old machine.new }
    ensures done { remap caller rcx (lent_of machine.old) ≡ record { answer = result; after = lent_of machine.new } }
{
    let gpa = Gpa(rcx);
    if !gpa.is_page() {
        return Err(Refusal::Parameter);
    }
    let v = machine.vcpu(caller);
    let old = v.calling as usize;
    let new = machine.usable(v.vmpl, gpa.page()).ok_or(Refusal::Address)?;
    if !is_owned(Owner::Plain, machine.table[new]) && new != old {
        return Err(Refusal::Address);
    }
    move_area(machine, caller, old, new);
    Ok(Progress::Success)
}
