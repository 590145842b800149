// The door for a host written in Rust or C: numbers and byte buffers only. Each function hands over to one of `monitor`, `call` or `discovery` and answers the paper's
// number. None has a `requires`: any size and any number is answered. Nothing is assumed.
#![tactic(auto)]

pub mod in_place;

ghost use Rattle.std.specs.Prelude.{◌≡◌, ℕ, length};
ghost use Rattle.rules.specs.Words.{registers_size};
ghost use Rattle.rules.specs.Call.{Posed};
ghost use Rattle.rules.specs.declared.Plan.{Plan};
ghost use Rattle.rules.specs.Answers.{Answered, outcome_number, launched_number, verdict_number};
ghost use Rattle.rules.specs.Flat.{buffers, registers_of, register_bytes};
ghost use Rattle.rules.specs.Discovery.{located_number};
ghost use Rattle.rules.specs.Promises.{MonitorLaunchPromise, MonitorStorePromise, MonitorMarkPromise, MonitorCallPromise};
ghost use Rattle.rules.specs.Promises.{MonitorAnnouncePromise, MonitorDiscoverPromise};

use call::Called;
use rules::{DiscoveryError, LaunchError, Outcome, Plan, Refused, Registers};
use words::Little;

pub const REGISTERS_SIZE: usize = 48;

// What a host is told by the paper's number.
trait Numbered {
    ghost number: { Self → ℕ };

    fn number(self) -> u32
        ensures { result ≡ number self };
}

#[tactic(auto, unfolding(rules::specs::Answers::outcome_number))]
impl Numbered for Outcome {
    ghost number = { outcome_number };

    fn number(self) -> u32 {
        self as u32
    }
}

#[tactic(auto, unfolding(rules::specs::Answers::launched_number))]
impl Numbered for Result<(), LaunchError> {
    ghost number = { launched_number };

    fn number(self) -> u32 {
        match self {
            Ok(()) => 0,
            Err(unmade) => unmade as u32,
        }
    }
}

#[tactic(auto, unfolding(rules::specs::Answers::verdict_number))]
impl Numbered for Result<(), Refused> {
    ghost number = { verdict_number };

    fn number(self) -> u32 {
        match self {
            Ok(()) => 0,
            Err(Refused) => 1,
        }
    }
}

#[tactic(auto, unfolding(rules::specs::Discovery::located_number))]
impl Numbered for Result<(), DiscoveryError> {
    ghost number = { located_number };

    fn number(self) -> u32 {
        match self {
            Ok(()) => 0,
            Err(untold) => untold as u32,
        }
    }
}

#[tactic(auto, unfolding(rules::specs::Promises::LaunchPromise, rules::specs::Promises::MonitorLaunchPromise, rules::specs::Answers::numbered))]
pub fn monitor_launch(
    memory: &mut [u8],
    table: &mut [u8],
    sheet: &mut [u8],
    n: usize,
    monitor_first: usize,
    monitor_count: usize,
    vmsa_page: usize,
    calling_page: usize,
    apic_id: u32,
    valid_below: usize,
) -> u32
    ensures { MonitorLaunchPromise n
        (record { first = monitor_first; count = monitor_count; vmsa = vmsa_page; calling = calling_page; apic = apic_id; valid = valid_below })
        (buffers memory.old table.old sheet.old)
        (record {
          answer = result;
          after = buffers memory.new table.new sheet.new;
        }) }
{
    let plan = Plan {
        first: monitor_first,
        count: monitor_count,
        vmsa: vmsa_page,
        calling: calling_page,
        apic: apic_id,
        valid: valid_below,
    };
    monitor::launch::launch(memory, table, sheet, n, plan).number()
}

#[tactic(auto, unfolding(rules::specs::Promises::StorePromise, rules::specs::Promises::MonitorStorePromise, rules::specs::Answers::numbered))]
pub fn monitor_store(
    memory: &mut [u8],
    table: &[u8],
    vmpl: u8,
    page: usize,
    offset: usize,
    bytes: &[u8],
) -> u32
    ensures { MonitorStorePromise vmpl page offset bytes.now table.now memory.old
        (record { answer = result; after = memory.new }) }
{
    monitor::steps::store(memory, table, vmpl, page, offset, bytes).number()
}

#[tactic(auto, unfolding(rules::specs::Promises::MarkPromise, rules::specs::Promises::MonitorMarkPromise, rules::specs::Answers::numbered))]
pub fn monitor_mark(sheet: &mut [u8], number: usize, running: u8) -> u32
    ensures { MonitorMarkPromise number running sheet.old (record { answer = result; after = sheet.new }) }
{
    monitor::steps::mark(sheet, number, running).number()
}

// RAX, RCX, RDX, R8, R9 and the exit reason, eight bytes each.
#[tactic(auto, unfolding(rules::specs::Flat::registers_of, rules::specs::Words::registers_size))]
fn read_registers(bytes: &[u8]) -> Registers
    requires { length bytes.now ≡ registers_size }
    ensures { result ≡ registers_of bytes.now }
{
    Registers {
        rax: u64::read(bytes, 0),
        rcx: u64::read(bytes, 8),
        rdx: u64::read(bytes, 16),
        r8: u64::read(bytes, 24),
        r9: u64::read(bytes, 32),
        reason: u64::read(bytes, 40),
    }
}

#[tactic(auto, unfolding(rules::specs::Words::registers_size))]
fn write_registers(bytes: &mut [u8], g: Registers)
    requires { length bytes.old ≡ registers_size }
    ensures { bytes.new ≡ register_bytes g }
{
    g.rax.write(bytes, 0);
    g.rcx.write(bytes, 8);
    g.rdx.write(bytes, 16);
    g.r8.write(bytes, 24);
    g.r9.write(bytes, 32);
    g.reason.write(bytes, 40);
}

#[tactic(auto, unfolding(rules::specs::Promises::CallPromise, rules::specs::Promises::MonitorCallPromise, rules::specs::Answers::numbered, rules::specs::Answers::refuse, rules::specs::Flat::door_bytes, rules::specs::Words::registers_size))]
pub fn monitor_call(
    memory: &mut [u8],
    table: &mut [u8],
    sheet: &mut [u8],
    registers: &mut [u8],
    caller: usize,
) -> u32
    ensures { MonitorCallPromise caller
        (record {
          registers = registers.old;
          machine = buffers memory.old table.old sheet.old;
        })
        (record {
          answer = result;
          after = record {
            registers = registers.new;
            machine = buffers memory.new table.new sheet.new;
          };
        }) }
{
    if registers.len() != REGISTERS_SIZE {
        return Outcome::BadMachine.number();
    }
    let g = read_registers(registers);
    let Called {
        outcome,
        registers: after,
    } = call::call(memory, table, sheet, g, caller);
    write_registers(registers, after);
    outcome.number()
}

#[tactic(auto, unfolding(rules::specs::Promises::AnnouncePromise, rules::specs::Promises::MonitorAnnouncePromise, rules::specs::Answers::numbered))]
pub fn monitor_announce(page: &mut [u8], base: u64, size: u64, area: u64, vmpl: u8) -> u32
    ensures { MonitorAnnouncePromise base size area vmpl page.old (record { answer = result; after = page.new }) }
{
    discovery::announce(page, base, size, area, vmpl).number()
}

#[tactic(auto, unfolding(rules::specs::Promises::DiscoverPromise, rules::specs::Promises::MonitorDiscoverPromise, rules::specs::Answers::numbered))]
pub fn monitor_discover(page: &[u8], fields: &mut [u8]) -> u32
    ensures { MonitorDiscoverPromise page.now fields.old (record { answer = result; after = fields.new }) }
{
    discovery::discover(page, fields).number()
}
