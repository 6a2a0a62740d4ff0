// What the programs do with files, standard input and standard output. A call that fails is said on standard error, in one line that
// begins with the program's name. No contract can say what the system reads or writes.
#![tactic(auto)]

ghost use Rattle.std.specs.Prelude.{◌≡◌, ◌<◌, ◌≤◌, length, take, Ok, IfOk, IfSome};
ghost use Rattle.std.specs.Io.{StartsWith};
ghost use Rattle.std.specs.Io.KnownBytes.{Consumes, IsAtEnd};

use std::env::{Env, FillError};
use std::fs::File;
use std::io::{Cursor, Error, Read, Write};
use std::{io, str};

// The system's numbers of three errors: there is no such argument, it is too long, and a name that is not UTF-8.
const EINVAL: i32 = 22;

const ENAMETOOLONG: i32 = 36;

const EILSEQ: i32 = 84;

// A text for standard error. Where that cannot be written there is nobody to tell.
fn tell(rt: &HostRuntime, text: &[u8]) {
    let _ = Print::write_all(&rt.stderr(), text);
}

// Says what went wrong, and why.
pub fn say(rt: &HostRuntime, program: &[u8], what: &[u8], why: &[u8]) {
    tell(rt, program);
    tell(rt, b": ");
    tell(rt, what);
    tell(rt, b": ");
    tell(rt, why);
    tell(rt, b"\n");
}

// The system's words for an error, without the number that stands behind them in its text.
fn words(text: &[u8]) -> &[u8]
    ensures { StartsWith text.now result.now }
{
    let Ok(all) = str::from_utf8(text) else {
        return text;
    };
    match all.split_once(" (os error ") {
        Some((before, _)) => before.as_bytes(),
        None => text,
    }
}

// Says what failed, and the system's words why.
fn fail(rt: &HostRuntime, what: &[u8], error: &Error) {
    let mut text = Cursor::new([0u8; 256]);
    let _ = write!(text, "{error}");
    let length = (text.position() as usize).min(256);
    let bytes = text.into_inner();
    tell(rt, what);
    tell(rt, b": ");
    tell(rt, words(&bytes[..length]));
    tell(rt, b"\n");
}

// The same behind the program's name.
fn say_failed(rt: &HostRuntime, program: &[u8], what: &[u8], error: &Error) {
    tell(rt, program);
    tell(rt, b": ");
    fail(rt, what, error);
}

// Reads to the end, in as many parts as it comes in, or until `room` is full: the number of bytes. Where it is known what there is to
// read, these are its first bytes, and fewer than `room` takes only if there are no more. A loop by hand, since std's `read_to_end` takes a
// heap, and there is none.
fn read_all<R: Read>(from: &mut R, room: &mut [u8]) -> io::Result<usize>
    ensures bound { IfOk result (λ n. n ≤ length room.old) }
    ensures bytes { IfOk result (λ n. Consumes (R.remaining from.old) (R.remaining from.new) (take n room.new)) }
    ensures end { IfOk result (λ n. n < length room.old → IsAtEnd (R.remaining from.new)) }
{
    let mut done = 0;
    while done < room.len() {
        let more = from.read(&mut room[done..])?;
        if more == 0 {
            return Ok(done);
        }
        done += more;
    }
    Ok(done)
}

// The bytes that are read so.
fn read_bytes<'a, R: Read>(from: &mut R, room: &'a mut [u8]) -> io::Result<&'a [u8]>
    ensures { IfOk result (λ bytes. length bytes.now ≤ length room.old) }
{
    let n = read_all(from, room)?;
    Ok(&room[..n])
}

// What was read, or none if that failed. Standard error then says so.
fn read_or_told<'a>(
    rt: &HostRuntime,
    program: &[u8],
    what: &[u8],
    read: io::Result<&'a [u8]>,
) -> Option<&'a [u8]>
    ensures { IfSome result (λ bytes. read.entry ≡ Ok bytes) }
{
    match read {
        Ok(bytes) => Some(bytes),
        Err(error) => {
            say_failed(rt, program, what, &error);
            None
        }
    }
}

// All bytes of standard input, or as many as `room` takes; or none if a read fails. Standard error then says so.
pub fn read_input<'a>(rt: &HostRuntime, program: &[u8], room: &'a mut [u8]) -> Option<&'a [u8]>
    ensures { IfSome result (λ bytes. length bytes.now ≤ length room.old) }
{
    let read = read_bytes(&mut rt.stdin(), room);
    read_or_told(rt, program, b"standard input", read)
}

// Opens the file that `path` names. A name is UTF-8.
fn open(rt: &HostRuntime, path: &[u8]) -> io::Result<File> {
    match str::from_utf8(path) {
        Ok(name) => File::open(rt, name),
        Err(_) => Err(Error::from_raw_os_error(EILSEQ)),
    }
}

// All bytes of the file that `path` names, or as many as `room` takes.
fn read_path<'a>(rt: &HostRuntime, path: &[u8], room: &'a mut [u8]) -> io::Result<&'a [u8]>
    ensures { IfOk result (λ bytes. length bytes.now ≤ length room.old) }
{
    let mut file = open(rt, path)?;
    read_bytes(&mut file, room)
}

// The bytes of argument i, none of them if there are more than `room` takes; or none if there is no such argument.
pub fn argument<'a>(rt: &HostRuntime, i: usize, room: &'a mut [u8]) -> Option<&'a [u8]>
    ensures { IfSome result (λ bytes. length bytes.now ≤ length room.old) }
{
    match rt.arg(i, room) {
        Ok(n) => Some(&room[..n]),
        Err(FillError::TooLong) => Some(&[]),
        Err(FillError::NotPresent) => None,
    }
}

// What the system says of an argument that cannot be had.
fn not_had(error: FillError) -> Error {
    match error {
        FillError::NotPresent => Error::from_raw_os_error(EINVAL),
        FillError::TooLong => Error::from_raw_os_error(ENAMETOOLONG),
    }
}

// The same as `read_input` for the file that argument i names.
pub fn read_named<'a>(
    rt: &HostRuntime,
    program: &[u8],
    i: usize,
    room: &'a mut [u8],
) -> Option<&'a [u8]>
    ensures { IfSome result (λ bytes. length bytes.now ≤ length room.old) }
{
    let mut path = [0u8; 4096];
    match rt.arg(i, &mut path) {
        Ok(n) => read_or_told(rt, program, &path[..n], read_path(rt, &path[..n], room)),
        Err(error) => {
            fail(rt, program, &not_had(error));
            None
        }
    }
}

// Writes all of `text` to standard output. Standard error says if some of it could not be written.
pub fn print(rt: &HostRuntime, program: &[u8], text: &[u8]) {
    if let Err(error) = Print::write_all(&rt.stdout(), text) {
        say_failed(rt, program, b"standard output", &error);
    }
}
