// Trouble that the system tells by an error, told in the system's words.
ghost use Rattle.std.specs.Prelude.{◌≡◌};

use crate::{NAME, Told};
use std::env::FillError;
use std::io::{ErrorKind, Write};
use std::{io, str};

// Two errors, as the system numbers them: an argument that isn't there, and one or a name that is too long.
const INVALID: i32 = 22;

const TOO_LONG: i32 = 36;

// What std puts behind the system's words, with the number of the error. It isn't told.
const NUMBER: &str = " (os error ";

// More bytes than the words of any error have.
const WORDS: usize = 256;

// Tells what failed, as the caller names it, and why.
pub(crate) fn fail(rt: &HostRuntime, what: &[u8], error: io::Error) -> Told
    ensures { result.«bytes» ≡ 0 }
{
    let mut space = [0; WORDS];
    let words = words_of(error, &mut space);
    let why = str::from_utf8(words).map_or(words, |text| without_number(text).as_bytes());
    print_line(rt, what, why);
    Told { bytes: 0 }
}

// The words of an error, put at the front of the space as far as they go.
fn words_of(error: io::Error, space: &mut [u8; WORDS]) -> &[u8] {
    let mut left = &mut space[..];
    let _ = write!(left, "{error}");
    let n = WORDS.saturating_sub(left.len());
    &space[..n]
}

fn without_number(text: &str) -> &str {
    text.rsplit_once(NUMBER).map_or(text, |(words, _)| words)
}

// Prints what, a colon and why as a line on standard error. Where that can't be written, there is no place to tell it.
pub(crate) fn print_line(rt: &HostRuntime, what: &[u8], why: &[u8]) {
    let to = rt.stderr();
    for part in [what, b": ", why, b"\n"] {
        let _ = Print::write_all(&to, part);
    }
}

// Why an argument can't be had. Both types are std's, so this is no `From`.
pub(crate) fn missing_argument(why: FillError) -> io::Error {
    io::Error::from_raw_os_error(match why {
        FillError::NotPresent => INVALID,
        FillError::TooLong => TOO_LONG,
    })
}

// A name as std takes one: text, and not longer than the system takes it.
pub(crate) fn path(name: &[u8]) -> io::Result<&str> {
    if name.len() >= NAME {
        return Err(io::Error::from_raw_os_error(TOO_LONG));
    }
    str::from_utf8(name).map_err(|_| {
        io::Error::new(
            ErrorKind::InvalidFilename,
            "isn't a name in UTF-8, so it can't be opened",
        )
    })
}
