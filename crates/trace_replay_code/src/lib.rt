// A recorded trace played again with chosen losses (rules 21.1 to 21.6), as `trace_replay` defines it.
#![tactic(auto)]

mod dropping;
mod playing;
mod trace;

pub use playing::replay_line;
pub use trace::replay;
