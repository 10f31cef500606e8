// The partners of a receiver's file: found in the register, and their file rows filled.
#![tactic(auto)]

pub mod register;
pub mod rows;
