// The table byte of a page: its fields, and each change of it.
ghost use Rattle.std.specs.Prelude.{◌≡◌, cond, eqb};
ghost use Rattle.rules.specs.Calls.{is_free};
ghost use Rattle.rules.specs.Machine.{owner, valid, permitted, grant, revoke, own, make_valid, make_invalid};
ghost use Rattle.pages.specs.Owner.{owner_number};

// Bits 2:0 of a table byte, from 0 up. The last two are nobody's, and count as not plain.
#[derive(Clone, Copy, PartialEq, Eq)]
pub enum Owner {
    Plain,
    CallingArea,
    Monitor,
    PoolFree,
    PoolInUse,
    VmsaArea,
    Nobody6,
    Nobody7,
}

#[tactic(auto, unfolding(rules::specs::Machine::owner, rules::specs::Words::bits))]
pub fn owner_of(b: u8) -> Owner
    ensures { owner_number result ≡ owner b }
{
    match b % 8 {
        0 => Owner::Plain,
        1 => Owner::CallingArea,
        2 => Owner::Monitor,
        3 => Owner::PoolFree,
        4 => Owner::PoolInUse,
        5 => Owner::VmsaArea,
        6 => Owner::Nobody6,
        _ => Owner::Nobody7,
    }
}

#[tactic(auto, using(crate::proofs::Numbered::numbered))]
pub fn is_owned(who: Owner, b: u8) -> bool
    ensures { result ≡ eqb (owner b) (owner_number who) }
{
    owner_of(b) == who
}

#[tactic(auto, unfolding(rules::specs::Calls::is_free))]
pub fn is_free(b: u8) -> bool
    ensures { result ≡ is_free b }
{
    is_owned(Owner::PoolFree, b)
}

#[tactic(auto, unfolding(rules::specs::Machine::valid, rules::specs::Words::bit))]
pub fn is_valid(b: u8) -> bool
    ensures { result ≡ valid b }
{
    b >> 3 & 1 == 1
}

// 1 if the page is valid, else 0.
pub fn valid_bit(b: u8) -> usize
    ensures { result ≡ cond (valid b) 1 0 }
{
    usize::from(is_valid(b))
}

#[tactic(auto, unfolding(rules::specs::Machine::permitted, rules::specs::Words::between, rules::specs::Words::bit))]
pub fn is_permitted(vmpl: u8, b: u8) -> bool
    ensures { result ≡ permitted vmpl b }
{
    (1..=3).contains(&vmpl) && b >> (3 + vmpl) & 1 == 1
}

#[tactic(auto, using(crate::proofs::Masks::grant_0, crate::proofs::Masks::grant_1, crate::proofs::Masks::grant_2, crate::proofs::Masks::grant_3))]
pub fn granted(vmpl: u8, b: u8) -> u8
    ensures { result ≡ grant vmpl b }
{
    match vmpl {
        0 => b,
        1 => b | 0b0001_0000,
        2 => b | 0b0011_0000,
        _ => b | 0b0111_0000,
    }
}

#[tactic(auto, using(crate::proofs::Masks::revoke_all))]
pub fn revoked(b: u8) -> u8
    ensures { result ≡ revoke b }
{
    b & !0b0111_0000
}

#[tactic(auto, using(crate::proofs::Numbered::numbered), unfolding(rules::specs::Machine::own))]
pub fn owned(who: Owner, b: u8) -> u8
    ensures { result ≡ own (owner_number who) b }
{
    b / 8 * 8 + who as u8
}

#[tactic(auto, using(crate::proofs::Masks::set_valid))]
pub fn made_valid(b: u8) -> u8
    ensures { result ≡ make_valid b }
{
    b | 0b1000
}

#[tactic(auto, using(crate::proofs::Masks::clear_valid))]
pub fn made_invalid(b: u8) -> u8
    ensures { result ≡ make_invalid b }
{
    b & !0b1000
}
