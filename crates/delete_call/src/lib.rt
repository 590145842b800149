// The call Delete: the record that it means, its checks, and its effects in order. Nothing is assumed.
#![tactic(auto)]

ghost use Rattle.std.specs.Prelude.{◌≡◌, ◌<◌, cond, eqb, length, Ok, Err, MatchResult, IfOk};
ghost use Rattle.rules.specs.Words.{records};
ghost use Rattle.rules.specs.Machine.{own, pool_free, change, record_at, vcpu};
ghost use Rattle.rules.specs.Calls.{clear_svme, deleted, delete};
ghost use Rattle.rules.specs.declared.Progress.TheVariants.{Success};
ghost use Rattle.laws.specs.Tested.{Tested, Names};
ghost use Rattle.machine.specs.Held.{bytes_of, lent_of, SameBuffers};

use machine::held::Machine;
use pages::byte::Owner;
use pages::gpa::Gpa;
use pages::vmsa::SVME;
use rules::{Code, Progress, Refusal, Vcpu};
use sheet::live::{Named, lowest};

// EFER bit 12 of a VMSA page, cleared.
#[tactic(auto, using(crate::proofs::Masks::clear_bit_12), unfolding(rules::specs::Calls::clear_svme, rules::specs::Machine::efer, rules::specs::Words::page_size))]
fn clear_svme(machine: &mut Machine, page: usize)
    requires { page < length machine.old.table.now }
    ensures same { SameBuffers machine.old machine.new }
    ensures done { lent_of machine.new ≡ clear_svme page (lent_of machine.old) }
{
    let efer: u64 = machine.number(page, 0xD0);
    machine.write(page, 0xD0, efer & !SVME);
}

// The pool page that a record holds is free, if it holds one.
fn free_pool(machine: &mut Machine, v: Vcpu)
    requires { v.holding ≡ 1 → v.pool < length machine.old.table.now }
    ensures same { SameBuffers machine.old machine.new }
    ensures done { lent_of machine.new
        ≡ cond (eqb v.holding 1) (change (own pool_free) v.pool (lent_of machine.old)) (lent_of machine.old) }
{
    if v.holding == 1 {
        machine.set_owner(v.pool as usize, Owner::PoolFree);
    }
}

// What Delete does to the machine, for a caller of this VMPL, in the paper's order.
#[tactic(auto, unfolding(rules::specs::Machine::vcpu, rules::specs::Machine::holds))]
fn deleted(machine: &mut Machine, vmpl: u8, i: usize)
    requires { (i < records) × Names (length machine.old.table.now) (record_at (lent_of machine.old) i) }
    ensures same { SameBuffers machine.old machine.new }
    ensures done { lent_of machine.new ≡ deleted vmpl i (lent_of machine.old) }
{
    let v = machine.vcpu(i);
    let vmsa = v.vmsa as usize;
    clear_svme(machine, vmsa);
    machine.set_owner(vmsa, Owner::Plain);
    machine.grant(vmsa, vmpl);
    machine.set_owner(v.calling as usize, Owner::Plain);
    free_pool(machine, v);
    machine.put_vcpu(i, Vcpu::default());
}

// The record that is meant, if it may be deleted.
#[tactic(auto, using(machine::proofs::Tested::caller_in), unfolding(rules::specs::Calls::delete, rules::specs::Answers::refuse, rules::specs::Calls::named_by, rules::specs::Machine::vcpu, rules::specs::Machine::record_at, rules::specs::Flat::parted, rules::specs::Words::records, rules::specs::Machine::page_of, rules::specs::Words::page_size, sheet::specs::Named::live_named))]
fn meant(machine: &Machine, caller: usize, rcx: u64) -> Result<usize, Refusal>
    requires { Tested (bytes_of machine.now) caller }
    ensures found { IfOk result (λ i. (i < records) × Names (length machine.now.table.now) (record_at (lent_of machine.now) i)) }
    ensures code { let m = lent_of machine.now in
        MatchResult result
        (λ i. delete caller rcx m ≡ record { answer = Ok Success; after = deleted (vcpu m caller).vmpl i m })
        (λ why. delete caller rcx m ≡ record { answer = Err why; after = m }) }
{
    let gpa = Gpa(rcx);
    if !gpa.is_page() {
        return Err(Refusal::Parameter);
    }
    let i = lowest(machine.sheet, Named::Vmsa(gpa.page())).ok_or(Refusal::Parameter)?;
    let vmpl = machine.vcpu(caller).vmpl;
    let v = machine.vcpu(i);
    if i == 0 || v.vmpl < vmpl {
        return Err(Refusal::Parameter);
    }
    if i != caller && v.running == 1 {
        return Err(Refusal::InUse);
    }
    Ok(i)
}

// 3 Delete.
#[tactic(auto, using(machine::proofs::Tested::caller_in))]
pub fn delete(machine: &mut Machine, caller: usize, rcx: u64) -> Code
    requires { Tested (bytes_of machine.old) caller }
    ensures same { SameBuffers machine.old machine.new }
    ensures done { delete caller rcx (lent_of machine.old)
        ≡ record { answer = result; after = lent_of machine.new } }
{
    let i = meant(machine, caller, rcx)?;
    let vmpl = machine.vcpu(caller).vmpl;
    deleted(machine, vmpl, i);
    Ok(Progress::Success)
}
