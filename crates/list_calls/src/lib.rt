// 1 Pvalidate and 4 Deposit: the head of a list, and the run over its entries. Nothing is assumed.
#![tactic(auto)]

ghost use Rattle.std.specs.Prelude.{◌≡◌, ◌+◌, ◌*◌, ◌<◌, ◌≤◌, IfOk, length};
ghost use Rattle.rules.specs.Words.{entries_a_call};
ghost use Rattle.rules.specs.Answers.{Answered, entry_code};
ghost use Rattle.rules.specs.Machine.{page_of};
ghost use Rattle.rules.specs.Lists.{in_list, list_count, list_entry, store_index, read_entry, run, list_call};
ghost use Rattle.rules.specs.Flat.{Buffers, buffers, parted};
ghost use Rattle.laws.specs.Tested.{Tested};
ghost use Rattle.list_calls.specs.Listed.{Listed, after_head};

use effects::carry_out_all;
use entries::reader::read;
use lists::list_page;
use pages::PAGE_SIZE;
use pages::gpa::Gpa;
use rules::{Code, Entry, ListCall, Progress, Refusal};
use sheet::Sheet;
use sheet::record::vcpu;
use words::Little;

pub const ENTRIES_A_CALL: usize = 32;

// A list that a call works through, for the caller that names it.
#[derive(Clone, Copy)]
struct List {
    call: ListCall,
    caller: usize,
    gpa: Gpa,
}

// The code of an entry: success where it reads cleanly.
#[tactic(auto, unfolding(rules::specs::Answers::entry_code))]
fn code_of(reading: Result<Entry, Refusal>) -> Code
    ensures { result ≡ entry_code reading }
{
    reading.map(|_| Progress::Success)
}

impl List {
    fn page(self) -> usize
        ensures { result ≡ page_of self.gpa.0 }
    {
        self.gpa.page() as usize
    }

    // The number that stands in it from `at` on, in any machine that has this memory.
    #[tactic(auto, unfolding(rules::specs::Lists::in_list, rules::specs::Machine::page_at, rules::specs::Flat::parted, rules::specs::Words::page_size))]
    fn number<N: Little>(self, memory: &[u8], at: usize) -> N
        requires { Listed self.gpa.0 memory.now (at + N.width) }
        ensures { (b : Buffers) → b.memory ≡ memory.now → N.value result ≡ in_list N.width at self.gpa.0 (parted b) }
    {
        parts::number(memory, PAGE_SIZE, self.page(), self.gpa.offset() + at)
    }

    #[tactic(auto, unfolding(rules::specs::Lists::list_count))]
    fn count(self, memory: &[u8]) -> u16
        requires { Listed self.gpa.0 memory.now 8 }
        ensures { (b : Buffers) → b.memory ≡ memory.now → result ≡ list_count self.gpa.0 (parted b) }
    {
        self.number(memory, 0)
    }

    // The head's checks in order: where the run begins, and how many entries there are from there on.
    #[tactic(auto, using(laws::proofs::Tested::caller_below, sheet::proofs::Whole::vcpu_whole, lists::proofs::Page::list_page_bytes, crate::proofs::Runs::list_below), unfolding(rules::specs::Lists::list_call, rules::specs::Lists::run_within, rules::specs::Lists::bad_count, rules::specs::Lists::bad_next, rules::specs::Lists::list_next, rules::specs::Answers::refuse, rules::specs::Words::multiple, rules::specs::Words::page_size, rules::specs::Machine::offset_of))]
    fn head(self, memory: &[u8], table: &[u8], sheet: &Sheet) -> Result<(usize, usize), Refusal>
        requires { Tested (buffers memory.now table.now sheet.now) self.caller }
        ensures is { list_call entries_a_call self.call self.caller self.gpa.0 (parted (buffers memory.now table.now sheet.now))
            ≡ after_head self.call self.caller self.gpa.0 result (parted (buffers memory.now table.now sheet.now)) }
        ensures listed { IfOk result (λ told. Listed self.gpa.0 memory.now (8 + 8 * (told.0 + told.1))) }
    {
        if self.gpa.0 % 8 != 0 {
            return Err(Refusal::Parameter);
        }
        list_page(table, vcpu(sheet, self.caller).vmpl, self.gpa)?;
        let count = usize::from(self.count(memory));
        if count == 0 || self.gpa.offset() + 8 + 8 * count > PAGE_SIZE {
            return Err(Refusal::Parameter);
        }
        let next = usize::from(self.number::<u16>(memory, 2));
        if next >= count {
            return Err(Refusal::Parameter);
        }
        Ok((next, count - next))
    }

    // Entry k, as it reads for a caller of this VMPL, in any machine that has this memory and table.
    #[tactic(auto, using(entries::proofs::Whole::read_whole), unfolding(rules::specs::Lists::list_entry, rules::specs::Flat::parted, rules::specs::Words::page_size))]
    fn entry(self, memory: &[u8], table: &[u8], vmpl: u8, k: usize) -> Result<Entry, Refusal>
        requires { Listed self.gpa.0 memory.now (16 + 8 * k) }
        ensures is { (b : Buffers) → b.memory ≡ memory.now → b.table ≡ table.now
            → result ≡ read_entry self.call vmpl self.gpa.0 (list_entry k self.gpa.0 (parted b)) (parted b) }
        ensures within { IfOk result (λ entry. entry.first + entry.count ≤ length table.now) }
    {
        let e = self.number(memory, 8 + 8 * k);
        read(table, self.call, vmpl, self.page(), e)
    }

    #[tactic(auto, unfolding(rules::specs::Lists::store_index, rules::specs::Machine::write, rules::specs::Machine::with_memory, rules::specs::Flat::parted, rules::specs::Words::page_size))]
    fn store_index(self, memory: &mut [u8], k: usize)
        requires { Listed self.gpa.0 memory.old (8 + 8 * k) }
        ensures { (b : Buffers) → b.memory ≡ memory.old → store_index k self.gpa.0 (parted b) ≡ parted (buffers memory.new b.table b.sheet) }
    {
        let offset = self.gpa.offset() + 2;
        parts::put_number(memory, PAGE_SIZE, self.page(), offset, k as u16);
    }

    // `todo` entries from index `start` on. No entry changes the sheet, so the caller's VMPL is asked for once.
    #[tactic(auto, using(crate::proofs::Runs::run_more_bytes, crate::proofs::Runs::run_refused_bytes, crate::proofs::Runs::run_ends_bytes, sheet::proofs::Whole::vcpu_whole, laws::proofs::Tested::pages_tested, laws::proofs::Tested::caller_below, laws::proofs::Parts::same_parts), unfolding(rules::specs::Answers::entry_code, rules::specs::Words::page_size))]
    fn run(
        self,
        memory: &mut [u8],
        table: &mut [u8],
        sheet: &Sheet,
        start: usize,
        todo: usize,
    ) -> Code
        requires tested { Tested (buffers memory.old table.old sheet.now) self.caller }
        requires listed { Listed self.gpa.0 memory.old (8 + 8 * (start + todo)) }
        ensures { run self.call self.caller self.gpa.0 todo start (parted (buffers memory.old table.old sheet.now))
            ≡ record { answer = result; after = parted (buffers memory.new table.new sheet.now) } }
    {
        let vmpl = vcpu(sheet, self.caller).vmpl;
        let end = start + todo;
        for k in start..end {
            let reading = self.entry(memory, table, vmpl, k);
            let Ok(entry) = reading else {
                self.store_index(memory, k);
                return code_of(reading);
            };
            carry_out_all(memory, table, entry, vmpl);
        }
        let count = usize::from(self.count(memory));
        self.store_index(memory, end);
        if end < count {
            Ok(Progress::Incomplete)
        } else {
            Ok(Progress::Success)
        }
    }
}

// 1 Pvalidate, 4 Deposit.
#[tactic(auto, unfolding(rules::specs::Words::entries_a_call))]
pub fn list_call(
    memory: &mut [u8],
    table: &mut [u8],
    sheet: &Sheet,
    call: ListCall,
    caller: usize,
    rcx: u64,
) -> Code
    requires { Tested (buffers memory.old table.old sheet.now) caller }
    ensures { list_call entries_a_call call caller rcx (parted (buffers memory.old table.old sheet.now))
        ≡ record { answer = result; after = parted (buffers memory.new table.new sheet.now) } }
{
    let list = List {
        call,
        caller,
        gpa: Gpa(rcx),
    };
    let (next, left) = list.head(memory, table, sheet)?;
    list.run(memory, table, sheet, next, ENTRIES_A_CALL.min(left))
}
