// Tests of the pages that an entry covers: all of them, and not only the first.
ghost use Rattle.std.specs.Prelude.{◌≡◌, ◌+◌, ◌*◌, ◌<◌, ◌≤◌, length, get_or};
ghost use Rattle.rules.specs.Words.{page_size, range, every, count};
ghost use Rattle.rules.specs.Machine.{valid};
ghost use Rattle.rules.specs.Lists.{coverable};
ghost use Rattle.laws.specs.Alone.{table_alone};

use pages::byte::{self, Owner};

// A page below N, plain and not the list's own.
#[tactic(auto, using(crate::proofs::Coverable::coverable_is))]
fn is_coverable(table: &[u8], vmpl: u8, p: usize, list: usize) -> bool
    requires { p < length table.now }
    ensures { result ≡ coverable vmpl (page_size * list) (table_alone table.now) p }
{
    byte::is_owned(Owner::Plain, table[p]) && p != list
}

// Each of n pages from `first` on may be covered by an entry of a list in page `list`, for a caller of this VMPL. All are looked at, with no way out of the
// loop: it so compiles to instructions on many bytes at once.
#[tactic(auto, using(crate::proofs::Ranges::none_yet, crate::proofs::Ranges::one_more))]
pub fn all_coverable(table: &[u8], vmpl: u8, first: usize, n: usize, list: usize) -> bool
    requires { first + n ≤ length table.now }
    ensures { result ≡ every (coverable vmpl (page_size * list) (table_alone table.now)) (range first n) }
{
    let mut all = true;
    for p in first..first + n {
        all &= is_coverable(table, vmpl, p, list);
    }
    all
}

// How many of n pages from `first` on are valid.
pub fn count_valid(table: &[u8], first: usize, n: usize) -> usize
    requires { first + n ≤ length table.now }
    ensures { result ≡ count (λ p. valid (get_or table.now p 0)) (range first n) }
{
    table[first..first + n]
        .iter()
        .map(|b| byte::valid_bit(*b))
        .sum()
}
