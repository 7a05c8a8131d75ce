// Lines 18 and 19: the receiving session written as an image, and read back (rules 25.23 and 25.24).
use calls_lines::{FILLING, LONGEST, Out, say, say_no_call, say_refused, say_written};
use session_calls::Session;

// 18: writes the session as an image, to a buffer of `cap` octets (rules 25.4 and 25.23), and changes nothing (rule 25.46).
pub fn write(out: &mut Out, session: Session, cap: usize) {
    let mut all = [FILLING; LONGEST];
    match all.get_mut(..cap) {
        Some(lent) => {
            let answer = image_writer::write(session, lent);
            say_written(out, answer, 4, lent);
        }
        None => say_no_call(out),
    }
}

// 19: returns the session that a text is an image of, or the session unchanged if the text is refused (rules 20.18 and 25.24).
pub fn restored(out: &mut Out, session: Session, text: &[u8]) -> Session {
    let found = image_reader::read(text);
    match found.answer {
        Ok(()) => {
            say(out, 0, 1);
            found.session
        }
        Err(why) => {
            say_refused(out, why);
            session
        }
    }
}
