// The discovery fields of the secrets page: their writer, and their reader for firmware. Both are public: neither has a `requires`, and each promise is one equation
// with a definition, over all that was lent. Nothing is assumed.
#![tactic(auto)]

ghost use Rattle.std.specs.Prelude.{◌≡◌, ◌+◌, ◌≤◌, eqb, length};
ghost use Rattle.std.proofs.lemmas.List.Edits.{sets};
ghost use Rattle.rules.specs.Words.{page_size};
ghost use Rattle.rules.specs.Answers.{refuse};
ghost use Rattle.rules.specs.Discovery.{discovery_of, discovery_bytes, fields_size, refuse_range};
ghost use Rattle.rules.specs.Promises.{AnnouncePromise, DiscoverPromise};

use pages::PAGE_SIZE;
use rules::{Discovery, DiscoveryError};
use words::Little;

// As addresses count it.
const PAGE: u64 = PAGE_SIZE as u64;

// Where the fields stand in the page, and how many bytes they take.
const FIELDS_AT: usize = 0x140;

const FIELDS_SIZE: usize = 32;

// SVSM_MAX_VERSION
const VERSION: u32 = 1;

// What writer and reader refuse alike: errors 1 to 5, in this order.
#[tactic(auto, unfolding(rules::specs::Discovery::refuse_range, rules::specs::Discovery::past_end, rules::specs::Discovery::area_inside, rules::specs::Answers::refuse, rules::specs::Words::multiple, rules::specs::Words::page_size))]
fn check_range(d: Discovery) -> Result<(), DiscoveryError>
    ensures { refuse_range (tt {0}) d (record { answer = Ok tt; after = tt }) ≡ record { answer = result; after = tt } }
{
    if d.base % PAGE != 0 {
        return Err(DiscoveryError::UnalignedBase);
    }
    if d.size % PAGE != 0 {
        return Err(DiscoveryError::UnalignedSize);
    }
    if d.area % PAGE != 0 {
        return Err(DiscoveryError::UnalignedArea);
    }
    // Of one bit more: a range may end at 2^64.
    let end = u128::from(d.base) + u128::from(d.size);
    if end > 1 << 64 {
        return Err(DiscoveryError::PastEnd);
    }
    if d.base <= d.area && u128::from(d.area) < end {
        return Err(DiscoveryError::AreaInside);
    }
    Ok(())
}

// Error 6. Each asks it at its own place.
#[tactic(auto, unfolding(rules::specs::Answers::refuse))]
fn check_monitor(d: Discovery) -> Result<(), DiscoveryError>
    ensures { refuse (tt {0}) (eqb d.size 0) (Err DiscoveryError.NoMonitor) (record { answer = Ok tt; after = tt }) ≡ record { answer = result; after = tt } }
{
    if d.size == 0 {
        return Err(DiscoveryError::NoMonitor);
    }
    Ok(())
}

#[tactic(auto, unfolding(rules::specs::Words::page_size, rules::specs::Discovery::discovery_of))]
fn fields_of(page: &[u8]) -> Discovery
    requires { length page.now ≡ page_size }
    ensures { result ≡ discovery_of page.now }
{
    Discovery {
        base: u64::read(page, FIELDS_AT),
        size: u64::read(page, FIELDS_AT + 8),
        area: u64::read(page, FIELDS_AT + 16),
        version: u32::read(page, FIELDS_AT + 24),
        vmpl: page[FIELDS_AT + 28],
    }
}

#[tactic(auto, using(crate::proofs::Row::in_a_row), unfolding(rules::specs::Discovery::fields_size))]
fn put_fields(bytes: &mut [u8], at: usize, d: Discovery)
    requires { at + fields_size ≤ length bytes.old }
    ensures { bytes.new ≡ sets bytes.old at (discovery_bytes d) }
{
    d.base.write(bytes, at);
    d.size.write(bytes, at + 8);
    d.area.write(bytes, at + 16);
    d.version.write(bytes, at + 24);
    // The VMPL with the first reserved byte, then the other two.
    u16::from(d.vmpl).write(bytes, at + 28);
    0_u16.write(bytes, at + 30);
}

// The writer: size 0 is tested last.
#[tactic(auto, unfolding(rules::specs::Promises::AnnouncePromise, rules::specs::Discovery::announce, rules::specs::Discovery::refuse_range, rules::specs::Discovery::past_end, rules::specs::Discovery::area_inside, rules::specs::Answers::refuse, rules::specs::Words::page_size, rules::specs::Discovery::fields_size))]
pub fn announce(
    page: &mut [u8],
    base: u64,
    size: u64,
    area: u64,
    vmpl: u8,
) -> Result<(), DiscoveryError>
    ensures { AnnouncePromise base size area vmpl page.old (record { answer = result; after = page.new }) }
{
    if page.len() != PAGE_SIZE {
        return Err(DiscoveryError::WrongLength);
    }
    let told = Discovery {
        base,
        size,
        area,
        version: VERSION,
        vmpl,
    };
    check_range(told)?;
    check_monitor(told)?;
    put_fields(page, FIELDS_AT, told);
    Ok(())
}

// The reader: after the lengths size 0 is tested first.
#[tactic(auto, using(crate::proofs::Row::over_all), unfolding(rules::specs::Promises::DiscoverPromise, rules::specs::Discovery::discover, rules::specs::Discovery::refuse_range, rules::specs::Answers::refuse, rules::specs::Words::page_size, rules::specs::Discovery::fields_size))]
pub fn discover(page: &[u8], fields: &mut [u8]) -> Result<(), DiscoveryError>
    ensures { DiscoverPromise page.now fields.old (record { answer = result; after = fields.new }) }
{
    if page.len() != PAGE_SIZE || fields.len() != FIELDS_SIZE {
        return Err(DiscoveryError::WrongLength);
    }
    let found = fields_of(page);
    check_monitor(found)?;
    check_range(found)?;
    put_fields(fields, 0, found);
    Ok(())
}
