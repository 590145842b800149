// The vCPU sheet: its limits, a whole record, the search of live records, and the shape test of outcome 3.
// Nothing is assumed.
#![tactic(auto)]

pub mod live;
pub mod record;
pub mod shape;

pub const RECORDS: usize = 16;

pub const RECORD_SIZE: usize = 32;

pub const SHEET_SIZE: usize = RECORD_SIZE * RECORDS;

pub const RECORDS_WITHOUT_POOL: usize = 4;

// The sheet as it is lent, once its size is tested.
pub type Sheet = [u8; SHEET_SIZE];
