// The cell report: one record, all whole records of a block, a stream that comes in blocks.
#![tactic(auto)]

pub mod block;
pub mod line;
pub mod stream;
