// Two traces compared (rules 22.1 to 22.18), as `trace_compare` defines it: the lines are cut and read, paired by their numbers, and their
// differences are listed.
#![tactic(auto)]

mod differing;
mod listing;
mod pairing;
mod reading;
mod texts;
mod traces;

pub use traces::compare;
