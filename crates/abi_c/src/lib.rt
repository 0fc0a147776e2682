// The archive of the C names: each export is the entry of that name in the crate `abi`, called with what C hands over, and promises what
// that one promises.
#![tactic(auto)]

pub mod cells;
pub mod clips;
pub mod fixed;
pub mod leaves;
pub mod lists;
pub mod turning;
