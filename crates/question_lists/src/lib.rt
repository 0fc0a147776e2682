// What a stored question holds: its words, by their places, and the lists that a call is lent, as they are stored.
#![tactic(auto)]

pub mod lent;
pub mod words;
