// What a reader must believe, first half: the types that cross crates. The second half, the rule sheet and the requests that have landed as definitions, is in specs/.
// What may be refused answers a `Result` whose error says why. A case has the paper's number as its own; specs/Answers.antt gives the numbers of whole answers,
// specs/Discovery.antt those of the discovery fields.
// There is no code here, and nothing is assumed.
#![tactic(auto)]

// Registers: RAX, RCX, RDX, R8, R9, and the exit reason from the VMSA.
#[derive(Clone, Copy)]
pub struct Registers {
    pub rax: u64,
    pub rcx: u64,
    pub rdx: u64,
    pub r8: u64,
    pub r9: u64,
    pub reason: u64,
}

// A record of the vCPU sheet: its fields in their order. The default is a record of zeros.
#[derive(Clone, Copy, Default)]
pub struct Vcpu {
    pub live: u8,
    pub vmpl: u8,
    pub running: u8,
    pub holding: u8,
    pub apic: u32,
    pub vmsa: u32,
    pub calling: u32,
    pub pool: u32,
    pub spare: u32,
    pub features: u64,
}

// What launch is given besides N: the monitor's first page and count, startup VMSA page, calling page, APIC ID, and V.
#[derive(Clone, Copy)]
pub struct Plan {
    pub first: usize,
    pub count: usize,
    pub vmsa: usize,
    pub calling: usize,
    pub apic: u32,
    pub valid: usize,
}

// What a call comes back with.
#[derive(Clone, Copy, PartialEq, Eq)]
pub enum Outcome {
    Handled = 0,
    NoCall = 1,
    Gone = 2,
    BadMachine = 3,
}

// How far a call came that was not refused.
#[derive(Clone, Copy, PartialEq, Eq)]
pub enum Progress {
    Success = 0,
    Incomplete = 0x80000000,
}

// Why a call that was handled is refused.
#[derive(Clone, Copy, PartialEq, Eq)]
pub enum Refusal {
    OneMorePage = 0x40000001,
    UnknownProtocol = 0x80000001,
    UnknownCall = 0x80000002,
    Address = 0x80000003,
    BadPending = 0x80000004,
    Parameter = 0x80000005,
    Request = 0x80000006,
    InUse = 0x80001003,
    SizeMismatch = 0x80001006,
    NoChange = 0x80001010,
}

// The code of a call that was handled.
pub type Code = Result<Progress, Refusal>;

// Why a launch is refused.
#[derive(Clone, Copy, PartialEq, Eq)]
pub enum LaunchError {
    WrongSize = 1,
    OutOfRange = 2,
    AreasMeet = 3,
    UnfitVmsa = 4,
}

// A store or a mark that is refused. There is one number for all reasons.
#[derive(Clone, Copy, PartialEq, Eq)]
pub struct Refused;

// The two calls that work through a list of entries.
#[derive(Clone, Copy)]
pub enum ListCall {
    Pvalidate,
    Deposit,
}

// What an entry wishes for the pages that it covers: invalid or valid (Pvalidate), or in the pool (Deposit).
#[derive(Clone, Copy)]
pub enum Wish {
    Invalid,
    Valid,
    Pool,
}

// An entry that reads cleanly: its range and its wish. One that does not is refused with a code.
#[derive(Clone, Copy)]
pub struct Entry {
    pub first: usize,
    pub count: usize,
    pub wish: Wish,
}

// The discovery fields of the secrets page: SVSM_BASE, SVSM_SIZE, SVSM_CAA, SVSM_MAX_VERSION and SVSM_GUEST_VMPL.
#[derive(Clone, Copy)]
pub struct Discovery {
    pub base: u64,
    pub size: u64,
    pub area: u64,
    pub version: u32,
    pub vmpl: u8,
}

// Why the writer or the reader of the discovery fields refuses.
#[derive(Clone, Copy, PartialEq, Eq)]
pub enum DiscoveryError {
    UnalignedBase = 1,
    UnalignedSize = 2,
    UnalignedArea = 3,
    PastEnd = 4,
    AreaInside = 5,
    NoMonitor = 6,
    WrongLength = 7,
}
