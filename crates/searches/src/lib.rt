// The first bad row of the register, the first reading out of range and the first bad engagement: what refusals 5 to 7 name. Each search is lent a section and told how many of its
// rows count: it doesn't ask that the section ends with them.
#![tactic(auto)]

pub mod engagements;
pub mod metering;
pub mod register;
