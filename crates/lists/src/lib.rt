// What Pvalidate, Deposit and Withdraw share: the page of a list. Nothing is assumed.
#![tactic(auto)]

ghost use Rattle.std.specs.Prelude.{◌≡◌, cond, Ok, Err};
ghost use Rattle.rules.specs.declared.Refusal.TheVariants.{Address};
ghost use Rattle.rules.specs.Machine.{page_of};
ghost use Rattle.rules.specs.Lists.{bad_list_page};
ghost use Rattle.laws.specs.Alone.{table_alone};

use pages::byte::{Owner, owner_of};
use pages::gpa::Gpa;
use pages::usable::usable;
use rules::Refusal;

// The page of a list, if a caller of this VMPL may use it. It looks at the table alone: the law `list_page_table` carries it to a machine with memory and
// sheet.
#[tactic(auto, unfolding(rules::specs::Lists::bad_list_page, rules::specs::Machine::usable, rules::specs::Machine::below, rules::specs::Machine::N, rules::specs::Machine::table_byte, rules::specs::Machine::owned_by, rules::specs::Machine::page_of, rules::specs::Words::page_size))]
pub fn list_page(table: &[u8], vmpl: u8, gpa: Gpa) -> Result<usize, Refusal>
    ensures { result ≡ cond (bad_list_page vmpl gpa.0 (table_alone table.now)) (Err Address) (Ok (page_of gpa.0)) }
{
    let page = usable(table, vmpl, gpa.page()).ok_or(Refusal::Address)?;
    match owner_of(table[page]) {
        Owner::Plain => Ok(page),
        Owner::CallingArea if gpa.offset() != 0 => Ok(page),
        _ => Err(Refusal::Address),
    }
}
