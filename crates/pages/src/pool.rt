// The pool, as the table has it: the lowest free pool page, and whether one is free.
ghost use Rattle.std.specs.Prelude.{◌≡◌, length, position, unwrap_or};
ghost use Rattle.rules.specs.Words.{lowest, exists};
ghost use Rattle.rules.specs.Calls.{is_free};

use crate::byte;

pub fn lowest_free(table: &[u8]) -> Option<usize>
    ensures place { result ≡ position is_free table.now }
    ensures lowest { unwrap_or result (length table.now) ≡ lowest is_free table.now }
{
    table.iter().position(|b| byte::is_free(*b))
}

// The whole table is looked through, with no way out of the loop: it so compiles to instructions on many bytes at once. Every call asks this, mostly of a
// table with no free page, where a way out would save nothing.
#[tactic(auto, using(crate::proofs::Free::one_more), unfolding(rules::specs::Words::exists))]
pub fn any_free(table: &[u8]) -> bool
    ensures { result ≡ exists is_free table.now }
{
    let mut found = false;
    for b in table {
        found |= byte::is_free(*b);
    }
    found
}
