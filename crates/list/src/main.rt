// Writes the listing of a module: of the file that its argument names, or of standard input without one. What can't be
// read gives one line on standard error.
#![tactic(auto)]

ghost use Rattle.std.specs.Prelude.{◌≤◌, length, IfOk};

use std::env::{Env, FillError};
use std::fmt::InlineText;
use std::fs::File;
use std::io::{self, ErrorKind, Read, Write};

// The longest path that the system opens, in bytes.
const PATH_MAX: usize = 4096;

// The system's number for a path that is longer.
const ENAMETOOLONG: i32 = 36;

// A byte more than the longest image that is listed is enough to know that one is too long.
const IMAGE_MAX: usize = 65537;

// No listing is longer.
const LISTING_MAX: usize = 458771;

// The listing of an image.
fn show(rt: &HostRuntime, image: &[u8]) -> io::Result<()> {
    let mut out = [0u8; LISTING_MAX];
    let n = listing::write(image, &mut out);
    rt.write_all(&out[..n])
}

// Reads until the input ends or `image` is full, and answers what was read.
fn fill<'a, R: Read>(input: &mut R, image: &'a mut [u8]) -> io::Result<&'a [u8]>
    ensures { IfOk result (λ part. length part.now ≤ length image.old) }
{
    let mut n = 0;
    while n < image.len() {
        match input.read(&mut image[n..])? {
            0 => break,
            more => n += more,
        }
    }
    Ok(&image[..n])
}

// Reads the file that the argument names, or standard input without one.
fn read<'a>(rt: &HostRuntime, image: &'a mut [u8]) -> io::Result<&'a [u8]>
    ensures { IfOk result (λ part. length part.now ≤ length image.old) }
{
    let mut path = [0u8; PATH_MAX];
    match rt.arg(1, &mut path) {
        Err(FillError::NotPresent) => fill(&mut rt.stdin(), image),
        Err(FillError::TooLong) => Err(io::Error::from_raw_os_error(ENAMETOOLONG)),
        Ok(n) => match std::str::from_utf8(&path[..n]) {
            Err(_) => Err(io::Error::from(ErrorKind::InvalidInput)),
            Ok(path) => fill(&mut File::open(rt, path)?, image),
        },
    }
}

// What failed, in the system's words, without the number that the system gives it.
fn tell(rt: &HostRuntime, error: io::Error) -> io::Result<()> {
    let line = InlineText::<512>::of(error);
    let text = line.as_str();
    let words = text
        .split_once(" (os error ")
        .map_or(text, |(words, _)| words);
    eprintln!(rt; "list: {words}")
}

fn main(rt: HostRuntime) -> io::Result<()> {
    let mut image = [0u8; IMAGE_MAX];
    match read(&rt, &mut image) {
        Ok(image) => show(&rt, image),
        Err(error) => tell(&rt, error),
    }
}
