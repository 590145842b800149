// What is written in the machine.
ghost use Rattle.std.specs.Prelude.{◌≡◌, ◌+◌, ◌<◌, ◌≤◌, [], ◌∷◌, length};
ghost use Rattle.std.proofs.lemmas.List.Edits.{sets};
ghost use Rattle.rules.specs.Words.{page_size, records, little};
ghost use Rattle.rules.specs.Machine.{write, put, change, own, grant, revoke, amend, laid_out};
ghost use Rattle.pages.specs.Owner.{owner_number};
ghost use Rattle.machine.specs.Held.{lent_of, SameBuffers};

use crate::held::Machine;
use pages::PAGE_SIZE;
use pages::byte::{self, Owner};
use rules::Vcpu;
use words::Little;

impl Machine<'_> {
    // The table byte of a page.
    #[tactic(auto, unfolding(rules::specs::Machine::put, rules::specs::Flat::parted))]
    pub fn put(&mut self, page: usize, b: u8)
        requires { page < length self.old.table.now }
        ensures same { SameBuffers self.old self.new }
        ensures done { lent_of self.new ≡ put page b (lent_of self.old) }
    {
        let table = &mut *self.table;
        table[page] = b;
    }

    #[tactic(auto, unfolding(rules::specs::Machine::change, rules::specs::Machine::table_byte, rules::specs::Flat::parted))]
    pub fn set_owner(&mut self, page: usize, owner: Owner)
        requires { page < length self.old.table.now }
        ensures same { SameBuffers self.old self.new }
        ensures done { lent_of self.new ≡ change (own (owner_number owner)) page (lent_of self.old) }
    {
        let b = self.table[page];
        self.put(page, byte::owned(owner, b));
    }

    #[tactic(auto, unfolding(rules::specs::Machine::change, rules::specs::Machine::table_byte, rules::specs::Flat::parted))]
    pub fn grant(&mut self, page: usize, vmpl: u8)
        requires { page < length self.old.table.now }
        ensures same { SameBuffers self.old self.new }
        ensures done { lent_of self.new ≡ change (grant vmpl) page (lent_of self.old) }
    {
        let b = self.table[page];
        self.put(page, byte::granted(vmpl, b));
    }

    #[tactic(auto, unfolding(rules::specs::Machine::change, rules::specs::Machine::table_byte, rules::specs::Flat::parted))]
    pub fn revoke(&mut self, page: usize)
        requires { page < length self.old.table.now }
        ensures same { SameBuffers self.old self.new }
        ensures done { lent_of self.new ≡ change revoke page (lent_of self.old) }
    {
        let b = self.table[page];
        self.put(page, byte::revoked(b));
    }

    #[tactic(auto, unfolding(rules::specs::Machine::write, rules::specs::Machine::with_memory, rules::specs::Flat::parted, rules::specs::Words::page_size))]
    pub fn write_byte(&mut self, page: usize, offset: usize, b: u8)
        requires { (page < length self.old.table.now) × (offset < page_size) }
        ensures same { SameBuffers self.old self.new }
        ensures done { lent_of self.new ≡ write page offset (b ∷ []) (lent_of self.old) }
    {
        let memory = &mut *self.memory;
        parts::put_byte(memory, PAGE_SIZE, page, offset, b);
    }

    #[tactic(auto, unfolding(rules::specs::Machine::write, rules::specs::Machine::with_memory, rules::specs::Flat::parted, rules::specs::Words::page_size))]
    pub fn write<N: Little>(&mut self, page: usize, offset: usize, x: N)
        requires { (page < length self.old.table.now) × (offset + N.width ≤ page_size) }
        ensures same { SameBuffers self.old self.new }
        ensures done { lent_of self.new ≡ write page offset (little N.width (N.value x)) (lent_of self.old) }
    {
        let memory = &mut *self.memory;
        parts::put_number(memory, PAGE_SIZE, page, offset, x);
    }

    // A whole record.
    #[tactic(auto, unfolding(rules::specs::Machine::amend, rules::specs::Machine::record_at, rules::specs::Flat::parted))]
    pub fn put_vcpu(&mut self, i: usize, v: Vcpu)
        requires { i < records }
        ensures same { SameBuffers self.old self.new }
        ensures done { lent_of self.new ≡ amend (λ r. laid_out v) i (lent_of self.old) }
    {
        let sheet = &mut *self.sheet;
        sheet::record::put_record(sheet, i, v);
    }

    // The calling page that a record names.
    #[tactic(auto, unfolding(rules::specs::Machine::amend, rules::specs::Machine::record_at, rules::specs::Machine::written, rules::specs::Flat::parted))]
    pub fn set_calling(&mut self, i: usize, page: u32)
        requires { i < records }
        ensures same { SameBuffers self.old self.new }
        ensures done { lent_of self.new ≡ amend (λ r. sets r 12 (little 4 page)) i (lent_of self.old) }
    {
        let sheet = &mut *self.sheet;
        sheet::record::set_calling(sheet, i, page);
    }
}
