// What is read of the machine.
ghost use Rattle.std.specs.Prelude.{◌≡◌, ◌+◌, ◌<◌, ◌≤◌, cond, Some, None, length, get_or};
ghost use Rattle.rules.specs.Words.{page_size, records, number};
ghost use Rattle.rules.specs.Machine.{page_at, usable, vcpu};
ghost use Rattle.rules.specs.Calls.{any_free};
ghost use Rattle.machine.specs.Held.{lent_of};

use crate::held::Machine;
use pages::PAGE_SIZE;
use rules::Vcpu;
use words::Little;

impl Machine<'_> {
    #[tactic(auto, unfolding(rules::specs::Machine::vcpu, rules::specs::Machine::record_at, rules::specs::Flat::parted))]
    pub fn vcpu(&self, i: usize) -> Vcpu
        requires { i < records }
        ensures { result ≡ vcpu (lent_of self.now) i }
    {
        sheet::record::vcpu(self.sheet, i)
    }

    // The page itself, if the calls may use it.
    #[tactic(auto, using(laws::proofs::Usable::usable_alone), unfolding(rules::specs::Flat::parted))]
    pub fn usable(&self, vmpl: u8, page: u64) -> Option<usize>
        ensures { result ≡ cond (usable vmpl (lent_of self.now) page) (Some page) None }
    {
        pages::usable::usable(self.table, vmpl, page)
    }

    // Whether a pool page is free.
    #[tactic(auto, unfolding(rules::specs::Calls::any_free, rules::specs::Flat::parted))]
    pub fn any_free(&self) -> bool
        ensures { result ≡ any_free (lent_of self.now) }
    {
        pages::pool::any_free(self.table)
    }

    #[tactic(auto, unfolding(rules::specs::Machine::page_at, rules::specs::Flat::parted, rules::specs::Words::page_size))]
    pub fn byte(&self, page: usize, offset: usize) -> u8
        requires { (page < length self.now.table.now) × (offset < page_size) }
        ensures { result ≡ get_or (page_at (lent_of self.now) page) offset 0 }
    {
        parts::byte(self.memory, PAGE_SIZE, page, offset)
    }

    #[tactic(auto, unfolding(rules::specs::Machine::page_at, rules::specs::Flat::parted, rules::specs::Words::page_size))]
    pub fn number<N: Little>(&self, page: usize, offset: usize) -> N
        requires { (page < length self.now.table.now) × (offset + N.width ≤ page_size) }
        ensures { N.value result ≡ number N.width (page_at (lent_of self.now) page) offset }
    {
        parts::number(self.memory, PAGE_SIZE, page, offset)
    }
}
