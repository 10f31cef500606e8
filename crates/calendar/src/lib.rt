// Dates of the Gregorian calendar.
#![tactic(auto)]

pub mod dates;

// On which day of a calendar the clocks go forward, or back, if they do: that day is shorter, or longer. An enum of its own, since it has three cases.
#[derive(Clone, Copy, Debug, PartialEq, Eq)]
pub enum Clock {
    Same,
    Shorter(u64),
    Longer(u64),
}
