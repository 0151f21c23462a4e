// The totals of a block's answers, by the month and for the season.
#![tactic(auto)]

pub mod months;
pub mod tally;
