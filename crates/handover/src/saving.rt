// The image in a file. It is written to another file beside it, which is then renamed: so the file has the old image or the new one, and
// never a part of one (rule 20.26).
ghost use Rattle.session_held.specs.Table.{lent_by};
ghost use Rattle.session_held.specs.Laid.{InRanges};

use crate::PATH_MAX;
use crate::playing::{Played, play};
use crate::telling::{say_failed, say_unwritten};
use image::Image;
use program_input::name_of;
use session_held::Session;
use std::fs::{File, OpenOptions};
use std::io::{Error, ErrorKind, Write};
use std::{fs, io};

// The longest name to which a suffix can be added.
const LONGEST: usize = PATH_MAX - 4;

// Makes the name of the file beside one whose name has `size` characters, in the buffer that holds that name. A name that is too long is
// filled up, and no file can have it.
pub fn name_beside(path: &mut [u8; PATH_MAX], size: usize) -> &[u8] {
    if LONGEST < size {
        path[size.min(PATH_MAX)..].fill(b'.');
        return &path[..];
    }
    let end = size + 4;
    path[size..end].copy_from_slice(b".new");
    &path[..end]
}

// The first `size` octets, or none if there are fewer.
fn front(octets: &[u8], size: usize) -> &[u8] {
    octets.get(..size).unwrap_or(&[])
}

// A file can be replaced if there is none of that name, or if it can be written and is on a disk; for any other this fails. A device or a
// pipe cannot be synced to a disk, and is not replaced (rule 20.29).
fn replaceable(rt: &HostRuntime, path: &str) -> io::Result<()> {
    match OpenOptions::new().read(true).write(true).open(rt, path) {
        Ok(file) => file.sync_all(),
        Err(why) => {
            if why.kind() == ErrorKind::NotFound {
                return Ok(());
            }
            Err(why)
        }
    }
}

// Creates the file beside it, unless the file cannot be written.
fn open_beside(rt: &HostRuntime, path: &[u8], beside: &[u8]) -> io::Result<File> {
    replaceable(rt, name_of(path)?)?;
    File::create(rt, name_of(beside)?)
}

// Writes a text to the file, and fails if not all of it is on the disk.
fn put(file: &mut File, text: &[u8]) -> io::Result<()> {
    file.write_all(text)?;
    file.sync_all()
}

// Writes the image of a run to the file. Its writer never refuses: the session is within its ranges, and there is room for any image.
fn put_image(file: &mut File, played: Played, image: &[u8]) -> io::Result<()> {
    let written = played.image;
    match written {
        Ok(size) => put(file, front(image, size)),
        Err(_) => Err(Error::from(ErrorKind::InvalidData)),
    }
}

// Writes the image of a run to the file beside, and gives that the name of the file.
fn replace(
    rt: &HostRuntime,
    mut file: File,
    played: Played,
    image: &[u8],
    path: &[u8],
    beside: &[u8],
) -> io::Result<()> {
    put_image(&mut file, played, image)?;
    drop(file);
    fs::rename(rt, name_of(beside)?, name_of(path)?)
}

// Removes the file beside.
fn remove(rt: &HostRuntime, beside: &[u8]) {
    if let Ok(name) = name_of(beside) {
        let _ = fs::remove_file(rt, name);
    }
}

// Runs from a session on, and saves the image at the end in the file at `path`, by way of the file beside it.
pub fn play_and_save(rt: &HostRuntime, session: Session, path: &[u8], beside: &[u8])
    requires { InRanges (lent_by session) }
{
    let mut image = [0u8; Image::LIMIT];
    match open_beside(rt, path, beside) {
        Err(why) => say_failed(rt, path, b"cannot be written", why),
        Ok(file) => {
            let played = play(rt, session, &mut image);
            if !played.whole {
                say_unwritten(rt);
                remove(rt, beside);
                return;
            }
            if let Err(why) = replace(rt, file, played, &image, path, beside) {
                say_failed(rt, path, b"cannot be written", why);
                remove(rt, beside);
            }
        }
    }
}
