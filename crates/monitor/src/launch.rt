// Launch: the checks of its plan, lowest number first, and what it makes.
ghost use Rattle.std.specs.Prelude.{◌≡◌, false, cond, Ok, Err, [], ◌∷◌, ◌-◌, ◌<◌, length, get_or, replicate};
ghost use Rattle.rules.specs.Words.{page_size, records, record_size};
ghost use Rattle.rules.specs.Answers.{Answered};
ghost use Rattle.rules.specs.declared.LaunchError.TheVariants.{OutOfRange, AreasMeet, UnfitVmsa};
ghost use Rattle.rules.specs.Machine.{machine_of, page_at, laid_out, zeros};
ghost use Rattle.rules.specs.Launch.{launch, in_monitor, out_of_range, areas_meet, unfit_vmsa, launch_byte, launch_record, launch_table, made};
ghost use Rattle.rules.specs.Flat.{buffers, parts};
ghost use Rattle.rules.specs.Promises.{LaunchPromise};
ghost use Rattle.laws.specs.Alone.{without_sheet};
ghost use Rattle.machine.specs.Held.{lent_of, SameBuffers};

use machine::held::Machine;
use pages::vmsa;
use rules::{LaunchError, Plan, Vcpu};
use sheet::{SHEET_SIZE, Sheet};

#[tactic(auto, unfolding(rules::specs::Launch::in_monitor))]
fn in_monitor(plan: Plan, p: usize) -> bool
    ensures { result ≡ in_monitor plan p }
{
    plan.first <= p && p - plan.first < plan.count
}

// A page or V out of range, or the monitor empty.
#[tactic(auto, unfolding(rules::specs::Launch::out_of_range))]
fn in_range(plan: Plan, n: usize) -> Result<(), LaunchError>
    ensures { result ≡ cond (out_of_range plan n) (Err OutOfRange) (Ok tt) }
{
    if plan.first > n
        || plan.count > n - plan.first
        || plan.vmsa >= n
        || plan.calling >= n
        || plan.valid > n
        || plan.count == 0
    {
        return Err(LaunchError::OutOfRange);
    }
    Ok(())
}

// Two of the three areas meet.
#[tactic(auto, unfolding(rules::specs::Launch::areas_meet))]
fn areas_apart(plan: Plan) -> Result<(), LaunchError>
    ensures { result ≡ cond (areas_meet plan) (Err AreasMeet) (Ok tt) }
{
    if plan.vmsa == plan.calling || in_monitor(plan, plan.vmsa) || in_monitor(plan, plan.calling) {
        return Err(LaunchError::AreasMeet);
    }
    Ok(())
}

// VMPL or EFER of the startup VMSA.
fn fit_vmsa(memory: &[u8], page: usize) -> Result<(), LaunchError>
    requires { page < length (parts page_size memory.now) }
    ensures { result ≡ cond (unfit_vmsa (get_or (parts page_size memory.now) page [])) (Err UnfitVmsa) (Ok tt) }
{
    if vmsa::is_unfit(memory, page) {
        return Err(LaunchError::UnfitVmsa);
    }
    Ok(())
}

// The plan's checks, lowest number first.
#[tactic(auto, using(laws::proofs::FlatLaunch::in_range), unfolding(rules::specs::Launch::launch, rules::specs::Answers::refuse, rules::specs::Machine::N, rules::specs::Machine::page_at))]
fn checked(memory: &[u8], table: &[u8], plan: Plan) -> Result<(), LaunchError>
    requires { length (parts page_size memory.now) ≡ length table.now }
    ensures { result ≡ (launch plan (machine_of (without_sheet memory.now table.now))).answer }
{
    in_range(plan, table.len())?;
    areas_apart(plan)?;
    fit_vmsa(memory, plan.vmsa)
}

#[tactic(auto, unfolding(rules::specs::Launch::launch_byte))]
fn launch_byte(plan: Plan, p: usize) -> u8
    ensures { result ≡ launch_byte plan p }
{
    if in_monitor(plan, p) {
        return 0x0A;
    }
    if p == plan.vmsa {
        return 0x0D;
    }
    if p == plan.calling {
        return 0x79;
    }
    if p < plan.valid { 0x78 } else { 0x00 }
}

#[tactic(auto, using(laws::proofs::Ranges::filled_more), unfolding(rules::specs::Words::range, rules::specs::Launch::launch_table))]
fn make_table(table: &mut [u8], plan: Plan)
    ensures { table.new ≡ launch_table plan (length table.old) }
{
    for p in 0..table.len() {
        table[p] = launch_byte(plan, p);
    }
}

// The startup vCPU: live, not running, holding nothing.
#[tactic(auto, using(laws::proofs::FlatLaunch::in_range, laws::proofs::FlatSteps::sizes, machine::proofs::Placed::pages_held), unfolding(rules::specs::Launch::launch_record, rules::specs::Machine::page_at, rules::specs::Flat::parted, rules::specs::Words::most_pages))]
fn startup(machine: &Machine, plan: Plan) -> Vcpu
    requires { out_of_range plan (length machine.now.table.now) ≡ false }
    ensures { laid_out result ≡ launch_record plan (page_at (lent_of machine.now) plan.vmsa) }
{
    Vcpu {
        live: 1,
        vmpl: vmsa::vmpl_of(machine.memory, plan.vmsa),
        apic: plan.apic,
        vmsa: plan.vmsa as u32,
        calling: plan.calling as u32,
        features: vmsa::features_of(machine.memory, plan.vmsa),
        ..Vcpu::default()
    }
}

#[tactic(auto, unfolding(rules::specs::Words::records))]
fn make_sheet(sheet: &mut Sheet, startup: Vcpu)
    ensures { parts record_size sheet.new
        ≡ laid_out startup ∷ replicate (records - 1) (zeros record_size) }
{
    sheet.fill(0);
    sheet::record::put_record(sheet, 0, startup);
}

#[tactic(auto, using(laws::proofs::FlatLaunch::in_range), unfolding(rules::specs::Launch::made, rules::specs::Launch::launch_sheet, rules::specs::Machine::write, rules::specs::Machine::with_memory, rules::specs::Machine::N, rules::specs::Machine::page_at, rules::specs::Flat::parted, rules::specs::Words::little, rules::specs::Words::page_size))]
fn make(machine: &mut Machine, plan: Plan)
    requires { out_of_range plan (length machine.old.table.now) ≡ false }
    ensures same { SameBuffers machine.old machine.new }
    ensures done { lent_of machine.new ≡ (made plan (lent_of machine.old)).lent }
{
    let startup = startup(machine, plan);
    let sheet = &mut *machine.sheet;
    make_sheet(sheet, startup);
    let table = &mut *machine.table;
    make_table(table, plan);
    machine.write(plan.calling, 0, 0_u16);
}

// N pages of memory, a table and a sheet, made ready for the guest.
#[tactic(auto, using(laws::proofs::FlatLaunch::launch_unsized, laws::proofs::FlatLaunch::well_sized_by, laws::proofs::FlatSteps::length_pages), unfolding(rules::specs::Promises::LaunchPromise, rules::specs::Flat::well_sized, rules::specs::Flat::memory_sized, rules::specs::Flat::sheet_sized, rules::specs::Words::record_size, rules::specs::Words::records))]
pub fn launch(
    memory: &mut [u8],
    table: &mut [u8],
    sheet: &mut [u8],
    n: usize,
    plan: Plan,
) -> Result<(), LaunchError>
    ensures { LaunchPromise n plan (buffers memory.old table.old sheet.old)
        (record {
          answer = result;
          after = buffers memory.new table.new sheet.new;
        }) }
{
    if !pages::memory::fits(table.len(), memory.len()) || n != table.len() {
        return Err(LaunchError::WrongSize);
    }
    let Some(sheet) = sheet.as_mut_array::<SHEET_SIZE>() else {
        return Err(LaunchError::WrongSize);
    };
    checked(memory, table, plan)?;
    let mut machine = Machine {
        memory,
        table,
        sheet,
    };
    make(&mut machine, plan);
    Ok(())
}
