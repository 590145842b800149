// The entry reader: an entry either reads cleanly into its range and wish, or is refused. All its checks are made here.
ghost use Rattle.std.specs.Prelude.{◌≡◌, ◌+◌, ◌≤◌, IfOk, eqb, length};
ghost use Rattle.entries.specs.Reading.{wish_of, read_at};

use crate::bits::Bits;
use crate::covered::{all_coverable, count_valid};
use rules::{Entry, ListCall, Refusal, Wish};

// The wish of an entry that covers n pages, of which `found` are valid.
fn wish_of(call: ListCall, bits: Bits, found: usize, n: usize) -> Result<Wish, Refusal>
    ensures { result ≡ wish_of call (eqb found n) (eqb found 0) bits.0 }
{
    match call {
        ListCall::Pvalidate if found != n && found != 0 => Err(Refusal::SizeMismatch),
        ListCall::Pvalidate => {
            let wish = bits.wish();
            let unchanged = if let Wish::Valid = wish {
                found == n
            } else {
                found == 0
            };
            if unchanged && !bits.ignores_no_change() {
                return Err(Refusal::NoChange);
            }
            Ok(wish)
        }
        ListCall::Deposit if found != n => Err(Refusal::Address),
        ListCall::Deposit => Ok(Wish::Pool),
    }
}

// An entry of a call's list, whose own page is `list`, for a caller of this VMPL.
#[tactic(auto, using(crate::proofs::Reading::read_malformed, crate::proofs::Reading::read_foreign, crate::proofs::Reading::read_beyond, crate::proofs::Reading::read_clean, crate::proofs::Reading::ends_fit))]
pub fn read(table: &[u8], call: ListCall, vmpl: u8, list: usize, e: u64) -> Result<Entry, Refusal>
    ensures is { result ≡ read_at call vmpl list e table.now }
    ensures within { IfOk result (λ entry. entry.first + entry.count ≤ length table.now) }
{
    let bits = Bits(e);
    if bits.is_malformed(call) {
        return Err(Refusal::Parameter);
    }
    let first = bits.page();
    let count = bits.pages();
    if first + count > table.len() || !all_coverable(table, vmpl, first, count, list) {
        return Err(Refusal::Address);
    }
    let found = count_valid(table, first, count);
    let wish = wish_of(call, bits, found, count)?;
    Ok(Entry { first, count, wish })
}
