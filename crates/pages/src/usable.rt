// The test of a page that the calls share: the one place where it is made for a page that a register names.
ghost use Rattle.std.specs.Prelude.{◌≡◌, cond, Some, None};
ghost use Rattle.rules.specs.Machine.{usable};
ghost use Rattle.laws.specs.Alone.{table_alone};

use crate::byte;

// The page itself, below N and valid, for a caller of this VMPL. All bits of the page's number count.
#[tactic(auto, unfolding(rules::specs::Machine::usable, rules::specs::Machine::below, rules::specs::Machine::N, rules::specs::Machine::table_byte))]
pub fn usable(table: &[u8], vmpl: u8, page: u64) -> Option<usize>
    ensures { result ≡ cond (usable vmpl (table_alone table.now) page) (Some page) None }
{
    let page = page as usize;
    let b = *table.get(page)?;
    byte::is_valid(b).then_some(page)
}
