// `handover [--load FILE] [--save FILE]` is the program that begins with the session of an image and leaves an image of the session at the
// end of its input (rules 20.23 to 20.26). Without --load it begins with a fresh session, without --save it leaves no image. It reports
// what goes wrong in one line on standard error. If an image cannot be loaded, or its file cannot be written, the program reads no line; if
// its results cannot all be written, it leaves no image (rules 20.29 to 20.31).
#![tactic(auto)]

mod arguments;
mod loading;
mod playing;
mod saving;
mod telling;

ghost use Rattle.session_held.specs.Table.{lent_by};
ghost use Rattle.session_held.specs.Laid.{InRanges};

use playing::play;
use program_input::say;
use saving::{name_beside, play_and_save};
use session_held::Session;
use std::rt::Env;

// The most characters of the name of a file, with the end that the system adds.
pub const PATH_MAX: usize = 4096;

// Runs from a session on, and leaves an image at the end if the arguments name its file.
fn run(rt: &HostRuntime, session: Session, save: Option<usize>)
    requires { InRanges (lent_by session) }
{
    let Some(save) = save else {
        let played = play(rt, session, &mut []);
        if !played.whole {
            telling::say_unwritten(rt);
        }
        return;
    };
    let mut path = [0u8; PATH_MAX];
    match rt.arg(save, &mut path) {
        Err(_) => telling::say_long(rt),
        Ok(size) => {
            let mut beside = path;
            let name = name_beside(&mut beside, size);
            play_and_save(rt, session, &path[..size], name)
        }
    }
}

fn main(rt: HostRuntime) {
    let Some(files) = arguments::asked_for(&rt) else {
        return say(&rt, b"usage: handover [--load FILE] [--save FILE]\n");
    };
    let begun = loading::begin(&rt, files.load);
    if begun.well {
        run(&rt, begun.session, files.save);
    }
}
