// The entries of a list: the bits of one, the pages that it covers, and the reader that makes all its checks. Nothing is assumed.
#![tactic(auto)]

pub mod bits;
pub mod covered;
pub mod reader;
