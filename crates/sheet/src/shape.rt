// The shape test of outcome 3, but for the sizes.
ghost use Rattle.std.specs.Prelude.{◌≡◌, ℕ, List};
ghost use Rattle.rules.specs.Words.{record_size, exists};
ghost use Rattle.rules.specs.Machine.{fields};
ghost use Rattle.rules.specs.Sound.{bad_names, bad_record};
ghost use Rattle.rules.specs.Call.{bad_sheet};
ghost use Rattle.rules.specs.Flat.{parts};

use crate::record::vcpu;
use crate::{RECORDS, Sheet};
use rules::Vcpu;

#[tactic(auto, unfolding(rules::specs::Sound::bad_names, rules::specs::Words::between, rules::specs::Machine::holds))]
fn bad_names(v: Vcpu, n: usize) -> bool
    ensures { (r : List ℕ) → v ≡ fields r → result ≡ bad_names n r }
{
    !(1..=3).contains(&v.vmpl)
        || v.vmsa as usize >= n
        || v.calling as usize >= n
        || v.holding == 1 && v.pool as usize >= n
}

#[tactic(auto, unfolding(rules::specs::Sound::bad_record, rules::specs::Machine::is_live))]
fn bad_record(v: Vcpu, n: usize) -> bool
    ensures { (r : List ℕ) → v ≡ fields r → result ≡ bad_record n r }
{
    v.live > 1 || v.running > 1 || v.holding > 1 || v.live == 1 && bad_names(v, n)
}

#[tactic(auto, unfolding(rules::specs::Words::records, rules::specs::Words::record_size))]
fn any_bad(sheet: &Sheet, n: usize) -> bool
    ensures { result ≡ exists (bad_record n) (parts record_size sheet.now) }
{
    (0..RECORDS).any(|i| bad_record(vcpu(sheet, i), n))
}

// A caller that is no record or not live, record 0 not live, or a record that holds what outcome 3 names, in a machine of n pages.
#[tactic(auto, unfolding(rules::specs::Call::bad_sheet, rules::specs::Machine::is_live, rules::specs::Words::records))]
pub fn bad_sheet(sheet: &Sheet, n: usize, caller: usize) -> bool
    ensures { result ≡ bad_sheet n caller (parts record_size sheet.now) }
{
    caller >= RECORDS
        || vcpu(sheet, caller).live != 1
        || vcpu(sheet, 0).live != 1
        || any_bad(sheet, n)
}
