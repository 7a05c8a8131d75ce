// The lines of the program `calls`: their arguments, their answers, and the calls that need no session (rules 25.1 to 25.14). The functions
// are proved to be safe and to terminate.
#![tactic(auto)]

mod answers;
mod arguments;
mod fields;
mod items;

pub use answers::{
    CAP, FILLING, LONGEST, Out, say, say_all, say_done, say_no_call, say_numbers, say_refused,
    say_sized, say_written,
};
pub use arguments::Arguments;
pub use fields::{Row, Target, fits, row_of, target_of};
pub use items::{PARITY, SPARES, answer};
