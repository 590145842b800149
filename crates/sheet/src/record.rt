// A record: read whole, written whole, and its fields that change alone.
ghost use Rattle.std.specs.Prelude.{◌≡◌, ◌<◌, [], ◌∷◌, set};
ghost use Rattle.rules.specs.Words.{records, record_size, little};
ghost use Rattle.rules.specs.Machine.{written, laid_out};
ghost use Rattle.rules.specs.Flat.{parts};
ghost use Rattle.sheet.specs.Row.{vcpu_in};

use crate::{RECORD_SIZE, Sheet};
use rules::Vcpu;

// Where the fields of a record stand.
pub const LIVE: usize = 0;

pub const VMPL: usize = 1;

pub const RUNNING: usize = 2;

pub const HOLDING: usize = 3;

pub const APIC_ID: usize = 4;

pub const VMSA: usize = 8;

pub const CALLING: usize = 12;

pub const POOL_PAGE: usize = 16;

pub const SPARE: usize = 20;

pub const FEATURES: usize = 24;

// A field that a caller leaves alone costs nothing: it is not read.
#[tactic(auto, unfolding(rules::specs::Machine::fields, rules::specs::Words::record_size))]
pub fn vcpu(sheet: &Sheet, i: usize) -> Vcpu
    requires { i < records }
    ensures { result ≡ vcpu_in sheet.now i }
{
    Vcpu {
        live: parts::byte(sheet, RECORD_SIZE, i, LIVE),
        vmpl: parts::byte(sheet, RECORD_SIZE, i, VMPL),
        running: parts::byte(sheet, RECORD_SIZE, i, RUNNING),
        holding: parts::byte(sheet, RECORD_SIZE, i, HOLDING),
        apic: parts::number(sheet, RECORD_SIZE, i, APIC_ID),
        vmsa: parts::number(sheet, RECORD_SIZE, i, VMSA),
        calling: parts::number(sheet, RECORD_SIZE, i, CALLING),
        pool: parts::number(sheet, RECORD_SIZE, i, POOL_PAGE),
        spare: parts::number(sheet, RECORD_SIZE, i, SPARE),
        features: parts::number(sheet, RECORD_SIZE, i, FEATURES),
    }
}

// Written eight bytes at a time.
pub fn put_record(sheet: &mut Sheet, i: usize, v: Vcpu)
    requires { i < records }
    ensures { parts record_size sheet.new ≡ set (parts record_size sheet.old) i (laid_out v) }
{
    let marks = words::join4(v.live, v.vmpl, v.running, v.holding);
    parts::put_number(sheet, RECORD_SIZE, i, LIVE, words::join8(marks, v.apic));
    parts::put_number(sheet, RECORD_SIZE, i, VMSA, words::join8(v.vmsa, v.calling));
    parts::put_number(
        sheet,
        RECORD_SIZE,
        i,
        POOL_PAGE,
        words::join8(v.pool, v.spare),
    );
    parts::put_number(sheet, RECORD_SIZE, i, FEATURES, v.features);
}

#[tactic(auto, unfolding(rules::specs::Words::record_size))]
pub fn set_calling(sheet: &mut Sheet, i: usize, page: u32)
    requires { i < records }
    ensures { parts record_size sheet.new ≡ written i 12 (little 4 page) (parts record_size sheet.old) }
{
    parts::put_number(sheet, RECORD_SIZE, i, CALLING, page);
}

// One byte of a record, by its place in it.
#[tactic(auto, unfolding(rules::specs::Words::record_size))]
pub fn set_byte(sheet: &mut Sheet, i: usize, field: usize, b: u8)
    requires { (i < records) × (field < record_size) }
    ensures { parts record_size sheet.new ≡ written i field (b ∷ []) (parts record_size sheet.old) }
{
    parts::put_byte(sheet, RECORD_SIZE, i, field, b);
}

#[tactic(auto, unfolding(rules::specs::Words::record_size))]
pub fn set_running(sheet: &mut Sheet, i: usize, running: u8)
    requires { i < records }
    ensures { parts record_size sheet.new ≡ written i 2 (running ∷ []) (parts record_size sheet.old) }
{
    set_byte(sheet, i, RUNNING, running);
}
