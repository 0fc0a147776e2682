// A record's 32 bytes, and the running tally that takes each record and is handed back for the next.
#![tactic(auto)]

pub mod bytes;
pub mod tally;
