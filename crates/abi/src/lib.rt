// The public entries under C names. Only numbers and lent lists pass: an entry answers the refusal's number, 0 for none, and writes
// its values at the front of a lent list; a leaf answers its one number. A cell is three lists, as every C name has them.
// A list too short for them is refusal 6, after all others; a refused call leaves every list as it was, save the work lists on a refusal 6.
#![tactic(auto)]

pub mod cells;
pub mod clips;
pub mod fixed;
pub mod leaves;
pub mod lists;
pub mod turning;
