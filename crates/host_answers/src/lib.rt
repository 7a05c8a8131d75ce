// Answers and choices encoded as numbers, since no enum is passed to or from C. The structs have C's layout. Each function here encodes one
// kind of answer or decodes one kind of choice (rules 24.1, 24.2, 24.5 to 24.8).
#![tactic(auto)]

mod answers;
mod joiner;
mod packet_answers;
mod settings;

pub use answers::{Answered, Number, Wrote, number_told, offered_told, written_told};
pub use joiner::{AfterField, HandedFrame, JoinerHead, flag, frame_told, no_flag, no_joiner};
pub use packet_answers::{PacketFound, ending_of, kind_named, kind_told, no_kind};
pub use settings::settings_of;
