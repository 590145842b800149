// The last writes: byte 0 of the caller's calling page, and byte 1 of the startup's. They ask nothing of memory and table.
ghost use Rattle.std.specs.Prelude.{◌≡◌, [], ◌∷◌, ◌<◌};
ghost use Rattle.rules.specs.Words.{page_size, records};
ghost use Rattle.rules.specs.Machine.{written};
ghost use Rattle.rules.specs.Call;
ghost use Rattle.rules.specs.Flat.{buffers, parts, parted};

use pages::PAGE_SIZE;
use sheet::Sheet;
use sheet::record::vcpu;

// A page past the end has no byte to write, here as in the definition; so no call need be shown to leave the sheet's page numbers below N.
fn put_byte(memory: &mut [u8], page: usize, offset: usize, b: u8)
    requires { offset < page_size }
    ensures { parts page_size memory.new ≡ written page offset (b ∷ []) (parts page_size memory.old) }
{
    if page < memory.len() / PAGE_SIZE {
        parts::put_byte(memory, PAGE_SIZE, page, offset, b);
    }
}

// Byte 1 of the startup calling page: 1 if a pool page is free, else 0.
#[tactic(auto, unfolding(rules::specs::Call::set_flag, rules::specs::Machine::startup, rules::specs::Machine::write, rules::specs::Machine::with_memory, rules::specs::Machine::vcpu, rules::specs::Machine::record_at, rules::specs::Calls::any_free, rules::specs::Flat::parted, rules::specs::Words::page_size, rules::specs::Words::records))]
pub fn set_flag(memory: &mut [u8], table: &[u8], sheet: &Sheet)
    ensures { Rattle.rules.specs.Call.set_flag
        (parted (buffers memory.old table.now sheet.now))
        ≡ parted (buffers memory.new table.now sheet.now) }
{
    let page = vcpu(sheet, 0).calling as usize;
    let flag = if pages::pool::any_free(table) { 1 } else { 0 };
    put_byte(memory, page, 1, flag);
}

// Byte 0 of the calling page that the caller's record now names.
#[tactic(auto, unfolding(rules::specs::Call::clear_pending, rules::specs::Machine::write, rules::specs::Machine::with_memory, rules::specs::Machine::vcpu, rules::specs::Machine::record_at, rules::specs::Flat::parted, rules::specs::Words::page_size))]
pub fn clear_pending(memory: &mut [u8], table: &[u8], sheet: &Sheet, caller: usize)
    requires { caller < records }
    ensures { Rattle.rules.specs.Call.clear_pending caller
        (parted (buffers memory.old table.now sheet.now))
        ≡ parted (buffers memory.new table.now sheet.now) }
{
    let page = vcpu(sheet, caller).calling as usize;
    put_byte(memory, page, 0, 0);
}
