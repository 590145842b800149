// What an entry of a list does to its pages, by its wish. It looks at memory and table alone, and asks for no sheet. Nothing is assumed.
#![tactic(auto)]

ghost use Rattle.std.specs.Prelude.{◌≡◌};
ghost use Rattle.rules.specs.Lists.{wished, carry_out, carry_out_all};
ghost use Rattle.laws.specs.Alone.{without_sheet};
ghost use Rattle.effects.specs.Covers.{Covers};

use pages::byte::{self, Owner};
use pages::memory;
use rules::{Entry, Wish};

// A page's table byte, after the wish.
#[tactic(auto, unfolding(rules::specs::Lists::wished))]
fn wished(wish: Wish, vmpl: u8, b: u8) -> u8
    ensures { result ≡ wished wish vmpl b }
{
    match wish {
        Wish::Invalid => byte::made_invalid(byte::revoked(b)),
        Wish::Valid => byte::granted(vmpl, byte::made_valid(b)),
        Wish::Pool => byte::owned(Owner::PoolFree, byte::revoked(b)),
    }
}

// One page of an entry. A page that is wished valid is filled with zeros; another's bytes stay.
#[tactic(auto, unfolding(rules::specs::Lists::carry_out, rules::specs::Lists::cleared, rules::specs::Machine::table_byte, rules::specs::Machine::put, rules::specs::Machine::fill, rules::specs::Machine::with_memory))]
fn carry_out(memory: &mut [u8], table: &mut [u8], wish: Wish, vmpl: u8, p: usize)
    requires { Covers memory.old table.old p 1 }
    ensures { carry_out wish vmpl p (without_sheet memory.old table.old)
        ≡ without_sheet memory.new table.new }
{
    if let Wish::Valid = wish {
        memory::fill_page(memory, p);
    }
    table[p] = wished(wish, vmpl, table[p]);
}

// The pages of an entry, in turn.
#[tactic(auto, using(crate::proofs::Laws::carry_out_none, crate::proofs::Laws::carry_out_more, laws::proofs::Parts::same_parts))]
pub fn carry_out_all(memory: &mut [u8], table: &mut [u8], entry: Entry, vmpl: u8)
    requires { Covers memory.old table.old entry.first entry.count }
    ensures { carry_out_all entry.wish vmpl entry.first entry.count
        (without_sheet memory.old table.old)
        ≡ without_sheet memory.new table.new }
{
    for p in entry.first..entry.first + entry.count {
        carry_out(memory, table, entry.wish, vmpl, p);
    }
}
