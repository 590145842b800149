// 5 Withdraw: the head's checks in order, and the free pool pages that are given back. Nothing is assumed.
#![tactic(auto)]

ghost use Rattle.std.specs.Prelude.{◌≡◌, ◌+◌, ◌*◌, ◌<◌, ◌≤◌, cond, Ok, Err, length, take};
ghost use Rattle.rules.specs.declared.Refusal.TheVariants.{Address};
ghost use Rattle.rules.specs.Words.{page_size, little, places};
ghost use Rattle.rules.specs.Answers.{Answered};
ghost use Rattle.rules.specs.Machine.{offset_of, written};
ghost use Rattle.rules.specs.Lists.{bad_list_page};
ghost use Rattle.rules.specs.Calls.{is_free, withdraw};
ghost use Rattle.rules.specs.Flat.{buffers, parts, parted};
ghost use Rattle.laws.specs.Alone.{table_alone};
ghost use Rattle.laws.specs.Tested.{Tested};
ghost use Rattle.withdraw_call.specs.Given.{named, Fits, freed, Given};

use lists::list_page;
use pages::PAGE_SIZE;
use pages::byte::{self, Owner};
use pages::gpa::Gpa;
use rules::{Code, Progress, Refusal};
use sheet::Sheet;
use sheet::record::vcpu;

// The list to be written: its page and its offset there, how many gPAs fit below the page's end, and the VMPL that their pages are granted to.
#[derive(Clone, Copy)]
struct GpaList {
    page: usize,
    offset: usize,
    room: usize,
    vmpl: u8,
}

impl GpaList {
    // As a gPA names it, if a caller of this VMPL may use its page.
    #[tactic(auto, unfolding(rules::specs::Words::page_size))]
    fn named(table: &[u8], vmpl: u8, gpa: Gpa) -> Result<GpaList, Refusal>
        requires { offset_of gpa.0 + 8 ≤ page_size }
        ensures { result ≡ cond (bad_list_page vmpl gpa.0 (table_alone table.now)) (Err Address) (Ok (named vmpl gpa.0)) }
    {
        let page = list_page(table, vmpl, gpa)?;
        let offset = gpa.offset();
        Ok(GpaList {
            page,
            offset,
            room: (PAGE_SIZE - offset - 8) / 8,
            vmpl,
        })
    }
}

// Page p's gPA in the list, after those that are taken already, and the page plain and granted to the caller's VMPL.
#[tactic(auto, unfolding(crate::specs::Given::freed, laws::specs::Revised::revise, rules::specs::Words::page_size, rules::specs::Words::most_pages))]
fn give_back(memory: &mut [u8], table: &mut [u8], list: GpaList, taken: usize, p: usize)
    requires fits { Fits list memory.old table.old }
    requires room { taken < list.room }
    requires below { p < length table.old }
    ensures freed { table.new ≡ freed list.vmpl p table.old }
    ensures listed { parts page_size memory.new
        ≡ written list.page (list.offset + 8 + 8 * taken) (little 8 (page_size * p))
        (parts page_size memory.old) }
{
    parts::put_number(
        memory,
        PAGE_SIZE,
        list.page,
        list.offset + 8 + 8 * taken,
        (PAGE_SIZE * p) as u64,
    );
    table[p] = byte::granted(list.vmpl, byte::owned(Owner::Plain, table[p]));
}

// The free pages, lowest first, as many as there is room for. How many were given.
#[tactic(auto, using(crate::proofs::Giving::full, crate::proofs::Giving::free_more, crate::proofs::Giving::not_passed, crate::proofs::Giving::freed_more, crate::proofs::Giving::listed_more, std::proofs::lemmas::List::length_push, laws::proofs::Withdrawals::written_none, laws::proofs::Parts::same_parts), unfolding(rules::specs::Words::places, rules::specs::Words::each, rules::specs::Calls::gpas))]
fn give_pages(memory: &mut [u8], table: &mut [u8], list: GpaList) -> usize
    requires { Fits list memory.old table.old }
    ensures { Given list (take list.room (places is_free 0 table.old)) memory.old table.old
        memory.new table.new result }
{
    let mut taken = 0;
    for p in 0..table.len() {
        if taken == list.room {
            break;
        }
        if !byte::is_free(table[p]) {
            continue;
        }
        give_back(memory, table, list, taken, p);
        taken += 1;
    }
    taken
}

#[tactic(auto, using(laws::proofs::Tested::caller_below, laws::proofs::Parts::same_parts, lists::proofs::Page::list_page_bytes, sheet::proofs::Whole::vcpu_whole, crate::proofs::Giving::list_below, laws::proofs::Tested::pages_tested, crate::proofs::Giving::most_tested, crate::proofs::Giving::counted_bytes), unfolding(rules::specs::Calls::withdraw, rules::specs::Answers::refuse, rules::specs::Words::multiple, rules::specs::Words::page_size, rules::specs::Machine::offset_of))]
pub fn withdraw(memory: &mut [u8], table: &mut [u8], sheet: &Sheet, caller: usize, rcx: u64) -> Code
    requires { Tested (buffers memory.old table.old sheet.now) caller }
    ensures { withdraw caller rcx (parted (buffers memory.old table.old sheet.now))
        ≡ record { answer = result; after = parted (buffers memory.new table.new sheet.now) } }
{
    let gpa = Gpa(rcx);
    if rcx % 8 != 0 || gpa.offset() == 0xFF8 {
        return Err(Refusal::Parameter);
    }
    let list = GpaList::named(table, vcpu(sheet, caller).vmpl, gpa)?;
    let taken = give_pages(memory, table, list);
    parts::put_number(memory, PAGE_SIZE, list.page, list.offset, taken as u16);
    Ok(Progress::Success)
}
