// The call Create: its checks in order, and what it makes. Memory is lent to be read alone. Nothing is assumed.
#![tactic(auto)]

ghost use Rattle.std.specs.Prelude.{◌≡◌, ℕ, List, [], true, cond, not, ◌&&◌, ◌||◌, ◌<◌, leb, eqb, IfSome, IfOk, length};
ghost use Rattle.rules.specs.Words.{page_size, records, record_size};
ghost use Rattle.rules.specs.Answers.{Answered};
ghost use Rattle.rules.specs.Machine.{laid_out, is_live, needs_page};
ghost use Rattle.rules.specs.Calls.{unfit_page, unfit_vcpu, free_record, any_free, new_record, created, create};
ghost use Rattle.rules.specs.Flat.{buffers, parts, parted, memory_fits};
ghost use Rattle.laws.specs.Alone.{table_alone, without_sheet};
ghost use Rattle.laws.specs.Marks.{marks};
ghost use Rattle.laws.specs.Tested.{Tested};
ghost use Rattle.create_call.specs.Wanted.{asked_of, pool_of, marked, Fit};

use pages::byte::{self, Owner};
use pages::gpa::Gpa;
use pages::usable::usable;
use pages::{pool, vmsa};
use rules::{Code, Progress, Refusal, Vcpu};
use sheet::live::{self, Named};
use sheet::record::{put_record, vcpu};
use sheet::{RECORDS, RECORDS_WITHOUT_POOL, Sheet};

// What is asked for, in pages that were found fit.
#[derive(Clone, Copy)]
struct Asked {
    caller_vmpl: u8,
    vmsa: usize,
    calling: usize,
    apic: u32,
}

// The page itself, if it is usable for a caller of this VMPL, and plain.
#[tactic(auto, unfolding(rules::specs::Calls::unfit_page, rules::specs::Machine::usable, rules::specs::Machine::below, rules::specs::Machine::N, rules::specs::Machine::owned_by, rules::specs::Machine::table_byte))]
fn fit_page(table: &[u8], vmpl: u8, page: u64) -> Option<usize>
    ensures page { result ≡ cond (unfit_page vmpl (table_alone table.now) page) None (Some page) }
    ensures below { IfSome result (λ p. p < length table.now) }
{
    let page = usable(table, vmpl, page)?;
    byte::is_owned(Owner::Plain, table[page]).then_some(page)
}

// Both pages, if each is fit and they are not the same.
fn fit_pages(table: &[u8], vmpl: u8, vmsa: u64, calling: u64) -> Result<(usize, usize), Refusal>
    ensures pages { let unfit = unfit_page vmpl (table_alone table.now) in
        result ≡ cond (unfit vmsa || unfit calling || eqb vmsa calling) (Err Refusal.Address) (Ok (vmsa, calling)) }
    ensures below { let n = length table.now in IfOk result (λ p. (p.0 < n) × (p.1 < n)) }
{
    let vmsa = fit_page(table, vmpl, vmsa).ok_or(Refusal::Address)?;
    let calling = fit_page(table, vmpl, calling).ok_or(Refusal::Address)?;
    if vmsa == calling {
        return Err(Refusal::Address);
    }
    Ok((vmsa, calling))
}

// Refused: VMPL or EFER in the VMSA page unfit, VMPL below the caller's, features unlike record 0's, the APIC ID of a live record.
#[tactic(auto, using(laws::proofs::Places::placed), unfolding(rules::specs::Calls::unfit_vcpu, rules::specs::Machine::page_at, rules::specs::Machine::startup, rules::specs::Machine::vcpu, rules::specs::Machine::record_at, sheet::specs::Named::live_named, rules::specs::Flat::parted, rules::specs::Words::records))]
fn check_vcpu(memory: &[u8], sheet: &Sheet, asked: Asked) -> Result<(), Refusal>
    requires { asked.vmsa < length (parts page_size memory.now) }
    ensures { result ≡ cond (unfit_vcpu (asked_of asked) (parted (buffers memory.now [] sheet.now))) (Err Refusal.Parameter) (Ok tt) }
{
    if vmsa::is_unfit(memory, asked.vmsa)
        || vmsa::vmpl_of(memory, asked.vmsa) < asked.caller_vmpl
        || vmsa::features_of(memory, asked.vmsa) != vcpu(sheet, 0).features
        || live::lowest(sheet, Named::Apic(asked.apic)).is_some()
    {
        return Err(Refusal::Parameter);
    }
    Ok(())
}

// The live marks as one number: bit i is set where record i is live.
#[tactic(auto, using(crate::proofs::Marked::one_more, crate::proofs::Marked::all_marked, sheet::proofs::At::rows_of), unfolding(rules::specs::Machine::is_live, rules::specs::Machine::fields, rules::specs::Words::records, rules::specs::Words::record_size, laws::specs::Marks::marks))]
fn live_marks(sheet: &Sheet) -> u64
    ensures marks { result ≡ marks is_live (parts record_size sheet.now) }
    ensures sized { length (parts record_size sheet.now) ≡ records }
{
    let mut marks = 0;
    for i in 0..RECORDS {
        let live = vcpu(sheet, i).live == 1;
        marks |= u64::from(live) << i;
    }
    marks
}

// The lowest record that is not live. The live marks inverted are the free marks.
#[tactic(auto, using(crate::proofs::Marked::counted, std::proofs::lemmas::Bool::Decides::nat_tests), unfolding(rules::specs::Calls::free_record, rules::specs::Flat::parted, rules::specs::Words::records))]
fn free_record(sheet: &Sheet) -> Option<usize>
    ensures lowest { let m = parted (buffers [] [] sheet.now) in
        result ≡ cond (leb (length m.sheet) (free_record m)) None (Some (free_record m)) }
    ensures below { IfSome result (λ i. i < records) }
{
    let free_marks = !live_marks(sheet);
    let i = free_marks.trailing_zeros() as usize;
    (i < RECORDS).then_some(i)
}

// The pool page of record i, if it needs one. The first records need none. Whether any page is free is asked first, of many bytes at once: so a table with none
// is not walked page by page.
#[tactic(auto, using(laws::proofs::Places::placed), unfolding(rules::specs::Machine::needs_page, rules::specs::Words::records_without_pool, rules::specs::Calls::any_free, rules::specs::Calls::free_page))]
fn pool_page(table: &[u8], i: usize) -> Result<Option<usize>, Refusal>
    ensures page { let m = table_alone table.now in
        result ≡ cond (needs_page i && not (any_free m)) (Err Refusal.OneMorePage) (Ok (pool_of i m)) }
    ensures below { IfOk result (λ pool. IfSome pool (λ p. p < length table.now)) }
{
    if i < RECORDS_WITHOUT_POOL {
        return Ok(None);
    }
    if !pool::any_free(table) {
        return Err(Refusal::OneMorePage);
    }
    Ok(pool::lowest_free(table))
}

// The new record, not running.
#[tactic(auto, unfolding(rules::specs::Calls::new_record, rules::specs::Calls::free_page, rules::specs::Machine::page_at, rules::specs::Words::most_pages))]
fn new_record(memory: &[u8], asked: Asked, pool: Option<usize>) -> Vcpu
    requires { Fit (length (parts page_size memory.now)) asked pool }
    ensures { (i : ℕ) → (table : List ℕ) → pool ≡ pool_of i (table_alone table)
        → laid_out result ≡ new_record (asked_of asked) i (without_sheet memory.now table) }
{
    Vcpu {
        live: 1,
        vmpl: vmsa::vmpl_of(memory, asked.vmsa),
        holding: u8::from(pool.is_some()),
        apic: asked.apic,
        vmsa: asked.vmsa as u32,
        calling: asked.calling as u32,
        pool: pool.unwrap_or(0) as u32,
        ..Vcpu::default()
    }
}

// The table's changes, in their order: VMSA page, calling page, pool page.
#[tactic(auto, unfolding(crate::specs::Wanted::both_marked, crate::specs::Wanted::marked, laws::specs::Revised::revise))]
fn mark_pages(table: &mut [u8], asked: Asked, pool: Option<usize>)
    requires { Fit (length table.old) asked pool }
    ensures { table.new ≡ marked (asked_of asked) pool table.old }
{
    table[asked.vmsa] = byte::owned(Owner::VmsaArea, byte::revoked(table[asked.vmsa]));
    table[asked.calling] = byte::owned(Owner::CallingArea, table[asked.calling]);
    if let Some(page) = pool {
        table[page] = byte::owned(Owner::PoolInUse, table[page]);
    }
}

// What Create makes, once its checks are passed: the table's changes and record i.
fn make(
    memory: &[u8],
    table: &mut [u8],
    sheet: &mut Sheet,
    i: usize,
    asked: Asked,
    pool: Option<usize>,
)
    requires below { i < records }
    requires sized { memory_fits (length table.old) (length memory.now) ≡ true }
    requires fit { Fit (length table.old) asked pool }
    requires pool { pool ≡ pool_of i (table_alone table.old) }
    ensures { parted (buffers memory.now table.new sheet.new) ≡ created (asked_of asked) i (parted (buffers memory.now table.old sheet.old)) }
{
    let v = new_record(memory, asked, pool);
    mark_pages(table, asked, pool);
    put_record(sheet, i, v);
}

// 2 Create.
#[tactic(auto, using(laws::proofs::Tested::pages_tested), unfolding(rules::specs::Calls::create, rules::specs::Answers::refuse, rules::specs::Calls::unfit_pages, rules::specs::Calls::unfit_page, rules::specs::Calls::unfit_vcpu, rules::specs::Calls::free_record, rules::specs::Calls::any_free, rules::specs::Calls::free_page, rules::specs::Calls::asked, rules::specs::Machine::usable, rules::specs::Machine::below, rules::specs::Machine::N, rules::specs::Machine::owned_by, rules::specs::Machine::table_byte, rules::specs::Machine::page_at, rules::specs::Machine::startup, rules::specs::Machine::vcpu, rules::specs::Machine::record_at, rules::specs::Machine::page_of, rules::specs::Flat::parted, rules::specs::Words::bits, rules::specs::Words::page_size))]
pub fn create(
    memory: &[u8],
    table: &mut [u8],
    sheet: &mut Sheet,
    caller: usize,
    rcx: u64,
    rdx: u64,
    r8: u64,
) -> Code
    requires { Tested (buffers memory.now table.old sheet.old) caller }
    ensures { create caller rcx rdx r8 (parted (buffers memory.now table.old sheet.old))
        ≡ record {
          answer = result;
          after = parted (buffers memory.now table.new sheet.new);
        } }
{
    let (vmsa, calling) = (Gpa(rcx), Gpa(rdx));
    if !vmsa.is_page() || !calling.is_page() {
        return Err(Refusal::Parameter);
    }
    let caller_vmpl = vcpu(sheet, caller).vmpl;
    let (vmsa, calling) = fit_pages(table, caller_vmpl, vmsa.page(), calling.page())?;
    let asked = Asked {
        caller_vmpl,
        vmsa,
        calling,
        apic: (r8 % 0x1_0000_0000) as u32,
    };
    check_vcpu(memory, sheet, asked)?;
    let i = free_record(sheet).ok_or(Refusal::Request)?;
    let pool = pool_page(table, i)?;
    make(memory, table, sheet, i, asked, pool);
    Ok(Progress::Success)
}
