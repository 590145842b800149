// The live records: the lowest that has an APIC ID, a VMSA page, or a number in a field.
ghost use Rattle.std.specs.Prelude.{◌≡◌, ◌<◌, IfSome, position, unwrap_or};
ghost use Rattle.rules.specs.Words.{records, record_size, lowest};
ghost use Rattle.rules.specs.Flat.{parts};
ghost use Rattle.sheet.specs.Row.{row};
ghost use Rattle.sheet.specs.Named.{live_named, InRecord};

use crate::record::vcpu;
use crate::{RECORD_SIZE, RECORDS, Sheet};

// What is looked for in live records. The last is a number in the four bytes of a field, by the field's place in the record.
#[derive(Clone, Copy)]
pub enum Named {
    Apic(u32),
    Vmsa(u64),
    Field(usize, u64),
}

#[tactic(auto, using(crate::proofs::At::field), unfolding(crate::specs::Named::live_named, crate::specs::Named::live_with, rules::specs::Machine::is_live, rules::specs::Machine::fields, rules::specs::Words::record_size))]
fn has(sheet: &Sheet, i: usize, name: Named) -> bool
    requires { (i < records) × InRecord name }
    ensures { result ≡ live_named name (row sheet.now i) }
{
    let v = vcpu(sheet, i);
    match name {
        Named::Apic(apic) => v.live == 1 && v.apic == apic,
        Named::Vmsa(page) => v.live == 1 && u64::from(v.vmsa) == page,
        Named::Field(field, number) => {
            let held: u32 = parts::number(sheet, RECORD_SIZE, i, field);
            v.live == 1 && u64::from(held) == number
        }
    }
}

// The lowest live record that has it. It is inlined, so that a caller's `name` is known where the records are walked.
#[inline(always)]
#[tactic(auto, unfolding(rules::specs::Words::records, rules::specs::Words::record_size))]
pub fn lowest(sheet: &Sheet, name: Named) -> Option<usize>
    requires { InRecord name }
    ensures place { result ≡ position (live_named name) (parts record_size sheet.now) }
    ensures below { IfSome result (λ i. i < records) }
    ensures lowest { unwrap_or result records ≡ lowest (live_named name) (parts record_size sheet.now) }
{
    (0..RECORDS).find(|i| has(sheet, *i, name))
}
