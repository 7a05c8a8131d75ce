// The session to begin with: a fresh one, or that of an image.
ghost use Rattle.std.specs.Prelude.{◌≤◌, length};
ghost use Rattle.session_held.specs.Table.{lent_by};
ghost use Rattle.session_held.specs.Laid.{InRanges};
ghost use Rattle.handover.specs.Promise.{BeginsWith};

use crate::PATH_MAX;
use crate::telling::{say_failed, say_long, say_refused};
use image::Image;
use program_input::open;
use session_held::Session;
use std::io::Read;
use std::rt::Env;

// What is read of a file: one character more than the longest image, just enough to know that a text is too long.
const TEXT: usize = Image::LIMIT + 1;

// The session, and whether nothing went wrong. The session is within its ranges in either case; a Result would not say so of a failure.
#[derive(Drop)]
pub struct Begun {
    pub session: Session,
    pub well: bool,
}

fn fresh(well: bool) -> Begun
    ensures { InRanges (lent_by result.session) }
{
    let session = Session::fresh();
    Begun { session, well }
}

// The session that a text is an image of; a fresh one if the text is no image.
fn restored(rt: &HostRuntime, path: &[u8], text: &[u8]) -> Begun
    ensures { BeginsWith text.now result }
{
    let found = image_reader::read(text);
    let session = found.session;
    match found.answer {
        Ok(()) => Begun {
            session,
            well: true,
        },
        Err(why) => {
            say_refused(rt, path, why);
            Begun {
                session,
                well: false,
            }
        }
    }
}

// Reads to the front of `text` until it is full, the input ends or a read fails, and returns how many octets it has.
fn read_full<R: Read>(file: &mut R, text: &mut [u8]) -> usize
    ensures { result ≤ length text.new }
{
    let mut size = 0;
    // The place moves by what was read.
    while size < text.len() {
        let n = file.read(&mut text[size..]).unwrap_or(0);
        if n == 0 {
            return size;
        }
        size += n;
    }
    size
}

// The session of the image in a file; `text` has room for the image.
fn load(rt: &HostRuntime, path: &[u8], text: &mut [u8]) -> Begun
    ensures { InRanges (lent_by result.session) }
{
    match open(rt, path) {
        Err(why) => {
            say_failed(rt, path, b"cannot be opened", why);
            fresh(false)
        }
        Ok(mut file) => {
            let size = read_full(&mut file, text);
            restored(rt, path, &text[..size])
        }
    }
}

pub fn begin(rt: &HostRuntime, at: Option<usize>) -> Begun
    ensures { InRanges (lent_by result.session) }
{
    let Some(at) = at else {
        return fresh(true);
    };
    let mut path = [0u8; PATH_MAX];
    let mut text = [0u8; TEXT];
    match rt.arg(at, &mut path) {
        Err(_) => {
            say_long(rt);
            fresh(false)
        }
        Ok(size) => load(rt, &path[..size], &mut text),
    }
}
