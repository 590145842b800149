// The calls that look at RCX alone: Query and vTOM. Nothing is assumed.
#![tactic(auto)]

ghost use Rattle.std.specs.Prelude.{◌≡◌};
ghost use Rattle.rules.specs.Calls;
ghost use Rattle.rules.specs.Calls.{query, configure};

use rules::{Code, Progress, Refusal};

// 6 Query: RCX after it. Its code is success.
#[tactic(auto, unfolding(rules::specs::Calls::query))]
pub fn queried(rcx: u64) -> u64
    ensures { result ≡ query rcx }
{
    if rcx == 1 { 0x0000000100000001 } else { 0 }
}

#[tactic(auto, unfolding(rules::specs::Calls::configure, rules::specs::Answers::refuse, rules::specs::Words::bits, rules::specs::Words::bit))]
fn configured(rcx: u64) -> Code
    ensures { configure rcx ≡ record { answer = result; after = rcx } }
{
    if rcx >> 5 & 0x7F != 0 || rcx >> 1 & 1 == 0 && rcx >> 12 != 0 {
        return Err(Refusal::Parameter);
    }
    Err(Refusal::Request)
}

// 7 vTOM.
#[tactic(auto, unfolding(rules::specs::Calls::vtom, rules::specs::Answers::refuse, rules::specs::Words::bit))]
pub fn vtom(rcx: &mut u64) -> Code
    ensures { Rattle.rules.specs.Calls.vtom rcx.old ≡ record { answer = result; after = rcx.new } }
{
    match *rcx {
        1 => {
            *rcx = 0;
            Ok(Progress::Success)
        }
        odd if odd & 1 == 1 => Err(Refusal::Parameter),
        even => configured(even),
    }
}
