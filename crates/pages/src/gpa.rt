// A guest physical address, and the page that it names.
ghost use Rattle.std.specs.Prelude.{◌≡◌};
ghost use Rattle.rules.specs.Words.{page_size, multiple};
ghost use Rattle.rules.specs.Machine.{page_of, offset_of};

use crate::PAGE_SIZE;

// As a register gives it: all its bits count.
#[derive(Clone, Copy)]
pub struct Gpa(pub u64);

#[tactic(auto, unfolding(rules::specs::Machine::page_of, rules::specs::Machine::offset_of, rules::specs::Words::multiple, rules::specs::Words::page_size))]
impl Gpa {
    pub fn page(self) -> u64
        ensures { result ≡ page_of self.0 }
    {
        self.0 / PAGE_SIZE as u64
    }

    pub fn offset(self) -> usize
        ensures { result ≡ offset_of self.0 }
    {
        self.0 as usize % PAGE_SIZE
    }

    pub fn is_page(self) -> bool
        ensures { result ≡ multiple page_size self.0 }
    {
        self.offset() == 0
    }
}
