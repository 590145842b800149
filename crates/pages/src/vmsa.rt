// The fields of a VMSA page: VMPL, EFER and features.
#![tactic(auto, using(crate::proofs::Within::in_page), unfolding(rules::specs::Machine::vmsa_vmpl, rules::specs::Machine::vmsa_features, rules::specs::Machine::efer, rules::specs::Words::page_size))]

ghost use Rattle.std.specs.Prelude.{◌≡◌, [], ◌<◌, length, get_or};
ghost use Rattle.rules.specs.Words.{page_size};
ghost use Rattle.rules.specs.Machine.{vmsa_vmpl, vmsa_features, efer};
ghost use Rattle.rules.specs.Launch.{unfit_vmsa};
ghost use Rattle.rules.specs.Flat.{parts};

use crate::PAGE_SIZE;

// EFER's bit 12.
pub const SVME: u64 = 0x1000;

pub fn vmpl_of(memory: &[u8], page: usize) -> u8
    requires { page < length (parts page_size memory.now) }
    ensures { result ≡ vmsa_vmpl (get_or (parts page_size memory.now) page []) }
{
    parts::byte(memory, PAGE_SIZE, page, 0xCA)
}

pub fn features_of(memory: &[u8], page: usize) -> u64
    requires { page < length (parts page_size memory.now) }
    ensures { result ≡ vmsa_features (get_or (parts page_size memory.now) page []) }
{
    parts::number(memory, PAGE_SIZE, page, 0x3B0)
}

pub fn efer_of(memory: &[u8], page: usize) -> u64
    requires { page < length (parts page_size memory.now) }
    ensures { result ≡ efer (get_or (parts page_size memory.now) page []) }
{
    parts::number(memory, PAGE_SIZE, page, 0xD0)
}

// VMPL not 1 to 3, or EFER bit 12 clear.
#[tactic(auto, unfolding(rules::specs::Launch::unfit_vmsa, rules::specs::Words::between, rules::specs::Words::bit))]
pub fn is_unfit(memory: &[u8], page: usize) -> bool
    requires { page < length (parts page_size memory.now) }
    ensures { result ≡ unfit_vmsa (get_or (parts page_size memory.now) page []) }
{
    !(1..=3).contains(&vmpl_of(memory, page)) || efer_of(memory, page) >> 12 & 1 != 1
}
