// The arguments: --load and --save, each at most once and followed by its FILE (rule 20.31).
use std::env::FillError;
use std::rt::Env;

// The place of each FILE among the arguments, if it is given.
#[derive(Drop)]
pub struct Files {
    pub load: Option<usize>,
    pub save: Option<usize>,
}

// How many characters of an argument are compared with a word.
const LONGEST: usize = 16;

// One more than the most arguments that are taken, the program's own name among them.
const TOO_MANY: usize = 6;

// How many arguments there are, the program's own name among them; of too many, that they are too many.
fn arg_count(rt: &HostRuntime) -> usize {
    for at in 0..TOO_MANY {
        if let Err(FillError::NotPresent) = rt.arg(at, &mut []) {
            return at;
        }
    }
    TOO_MANY
}

// Whether the argument at a place is this word.
fn is_word(rt: &HostRuntime, at: usize, word: &[u8]) -> bool {
    let mut text = [0u8; LONGEST];
    let size = rt.arg(at, &mut text).unwrap_or(0);
    &text[..size] == word
}

fn is_load(rt: &HostRuntime, at: usize) -> bool {
    is_word(rt, at, b"--load")
}

fn is_save(rt: &HostRuntime, at: usize) -> bool {
    is_word(rt, at, b"--save")
}

// The files, or None if there is another argument.
pub fn asked_for(rt: &HostRuntime) -> Option<Files> {
    let (load, save) = match arg_count(rt) {
        1 => (None, None),
        3 if is_load(rt, 1) => (Some(2), None),
        3 if is_save(rt, 1) => (None, Some(2)),
        5 if is_load(rt, 1) && is_save(rt, 3) => (Some(2), Some(4)),
        5 if is_save(rt, 1) && is_load(rt, 3) => (Some(4), Some(2)),
        _ => return None,
    };
    Some(Files { load, save })
}
