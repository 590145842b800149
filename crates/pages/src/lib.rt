// Pages: the table byte, a guest physical address, guest memory, the pool in the table, the test of a page, and the fields of a VMSA page. Each function
// is proved against a definition of `rules`. Nothing is assumed.
#![tactic(auto)]

pub mod byte;
pub mod gpa;
pub mod memory;
pub mod pool;
pub mod usable;
pub mod vmsa;

pub const PAGE_SIZE: usize = 4096;

pub const LEAST_PAGES: usize = 3;

pub const MOST_PAGES: usize = 8192;

// The pages of an entry of size 1.
pub const LARGE: usize = 512;
