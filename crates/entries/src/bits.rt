// An entry as it stands in a list: bits 1:0 are its size, bits 63:12 its first page, and the others are the call's.
ghost use Rattle.std.specs.Prelude.{◌≡◌, cond};
ghost use Rattle.rules.specs.declared.Wish.{Wish};
ghost use Rattle.rules.specs.Words.{bits, bit};
ghost use Rattle.rules.specs.Lists.{entry_first, entry_pages, reserved_bits, malformed};

use pages::LARGE;
use rules::{ListCall, Wish};

#[derive(Clone, Copy)]
pub struct Bits(pub u64);

#[tactic(auto, unfolding(rules::specs::Words::bits, rules::specs::Words::bit, rules::specs::Words::multiple, rules::specs::Words::large, rules::specs::Lists::entry_first, rules::specs::Lists::entry_pages, rules::specs::Lists::reserved_bits, rules::specs::Lists::malformed))]
impl Bits {
    fn size(self) -> u64
        ensures { result ≡ bits 1 0 self.0 }
    {
        self.0 & 0b11
    }

    // The first page that it covers.
    pub fn page(self) -> usize
        ensures { result ≡ entry_first self.0 }
    {
        (self.0 >> 12) as usize
    }

    // How many pages it covers.
    pub fn pages(self) -> usize
        ensures { result ≡ entry_pages self.0 }
    {
        if self.size() == 0 { 1 } else { LARGE }
    }

    fn reserved(self, call: ListCall) -> u64
        ensures { result ≡ reserved_bits call self.0 }
    {
        match call {
            ListCall::Pvalidate => self.0 >> 4 & 0xFF,
            ListCall::Deposit => self.0 >> 2 & 0x3FF,
        }
    }

    pub fn is_malformed(self, call: ListCall) -> bool
        ensures { result ≡ malformed call self.0 }
    {
        self.size() > 1 || self.reserved(call) != 0 || self.size() == 1 && self.page() % LARGE != 0
    }

    // What Pvalidate's entry wishes.
    pub fn wish(self) -> Wish
        ensures { result ≡ cond (bit 2 self.0) Wish.Valid Wish.Invalid }
    {
        if self.0 >> 2 & 1 == 1 {
            Wish::Valid
        } else {
            Wish::Invalid
        }
    }

    // Whether pages that are already as wished are no reason to refuse.
    pub fn ignores_no_change(self) -> bool
        ensures { result ≡ bit 3 self.0 }
    {
        self.0 >> 3 & 1 == 1
    }
}
