// The files that the arguments name, and what is written to standard error where one fails.
use std::fs::File;
use std::io::{Error, ErrorKind, Write};
use std::{io, str};

// Writes to standard error. A write that fails loses its text, and the program goes on.
pub fn say(rt: &HostRuntime, text: &[u8]) {
    let _ = rt.stderr().write_all(text);
}

// The name of a file as text: the library opens no other.
pub fn name_of(path: &[u8]) -> io::Result<&str> {
    str::from_utf8(path).map_err(|_| Error::new(
        ErrorKind::InvalidFilename,
        "the name is not UTF-8",
    ))
}

pub fn open(rt: &HostRuntime, path: &[u8]) -> io::Result<File> {
    File::open(rt, name_of(path)?)
}

// The text of an error without its number.
pub fn words_of(text: &str) -> &str {
    text.split_once(" (os error ")
        .map_or(text, |(words, _)| words)
}

// Writes a line that says what failed: a name, and the system's words for the error (rules 21.11 and 22.25).
pub fn fail(rt: &HostRuntime, name: &[u8], error: Error) -> io::Result<()> {
    let text = format!(in rt.alloc(); "{error}")?;
    say(rt, name);
    say(rt, b": ");
    say(rt, words_of(text.as_str()).as_bytes());
    say(rt, b"\n");
    Ok(())
}
