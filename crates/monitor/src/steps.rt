// The other steps: the store and the mark.
ghost use Rattle.std.specs.Prelude.{◌≡◌, []};
ghost use Rattle.rules.specs.Answers.{Answered};
ghost use Rattle.rules.specs.Steps.{may_store, may_mark};
ghost use Rattle.rules.specs.Flat.{buffers, parted};
ghost use Rattle.rules.specs.Promises.{StorePromise, MarkPromise};
ghost use Rattle.laws.specs.Alone.{table_alone};

use pages::{PAGE_SIZE, byte};
use rules::Refused;
use sheet::record::{set_running, vcpu};
use sheet::{RECORDS, SHEET_SIZE, Sheet};

// Room for n bytes in a page that is valid, and permitted to that VMPL.
#[tactic(auto, unfolding(rules::specs::Steps::may_store, rules::specs::Machine::below, rules::specs::Machine::N, rules::specs::Machine::table_byte, rules::specs::Words::page_size))]
fn may_store(table: &[u8], vmpl: u8, page: usize, offset: usize, n: usize) -> bool
    ensures { result ≡ may_store vmpl page offset n (table_alone table.now) }
{
    let Some(b) = table.get(page) else {
        return false;
    };
    offset <= PAGE_SIZE
        && n <= PAGE_SIZE - offset
        && byte::is_valid(*b)
        && byte::is_permitted(vmpl, *b)
}

// A store of bytes by a VMPL at an offset of a page.
#[tactic(auto, using(laws::proofs::FlatSteps::store_unsized, laws::proofs::FlatSteps::store_refused, laws::proofs::FlatSteps::store_done, laws::proofs::FlatSteps::length_pages), unfolding(rules::specs::Promises::StorePromise, rules::specs::Steps::may_store, rules::specs::Machine::below, rules::specs::Machine::N, rules::specs::Machine::table_byte, rules::specs::Flat::parted, rules::specs::Flat::memory_sized, rules::specs::Words::page_size))]
pub fn store(
    memory: &mut [u8],
    table: &[u8],
    vmpl: u8,
    page: usize,
    offset: usize,
    bytes: &[u8],
) -> Result<(), Refused>
    ensures { StorePromise vmpl page offset bytes.now table.now memory.old
        (record { answer = result; after = memory.new }) }
{
    if !pages::memory::fits(table.len(), memory.len())
        || !may_store(table, vmpl, page, offset, bytes.len())
    {
        return Err(Refused);
    }
    parts::put_bytes(memory, PAGE_SIZE, page, offset, bytes);
    Ok(())
}

// One of the sheet's records, live, and a value that a mark may have.
#[tactic(auto, unfolding(rules::specs::Steps::may_mark, rules::specs::Machine::is_live, rules::specs::Machine::record_at, rules::specs::Flat::parted, rules::specs::Words::records))]
fn may_mark(sheet: &Sheet, number: usize, running: u8) -> bool
    ensures { result ≡ may_mark number running (parted (buffers [] [] sheet.now)) }
{
    number < RECORDS && running <= 1 && vcpu(sheet, number).live == 1
}

// A run or stop mark on a record.
#[tactic(auto, using(laws::proofs::FlatSteps::mark_unsized, laws::proofs::FlatSteps::mark_refused, laws::proofs::FlatSteps::mark_done), unfolding(rules::specs::Promises::MarkPromise, rules::specs::Steps::may_mark, rules::specs::Flat::sheet_sized, rules::specs::Words::records, rules::specs::Words::record_size))]
pub fn mark(sheet: &mut [u8], number: usize, running: u8) -> Result<(), Refused>
    ensures { MarkPromise number running sheet.old (record { answer = result; after = sheet.new }) }
{
    let sheet = sheet.as_mut_array::<SHEET_SIZE>().ok_or(Refused)?;
    if !may_mark(sheet, number, running) {
        return Err(Refused);
    }
    set_running(sheet, number, running);
    Ok(())
}
