// A certificate's place. Links are followed, and a file that stands there is replaced only if it is a certificate: any other stays.
ghost use Rattle.std.specs.Prelude.{◌≡◌, ◌≤◌, length, IfOk};

use crate::trouble::{fail, path};
use crate::{CERTIFICATE, NAME, Told, blank_certificate, fill, tell};
use std::fs::{File, OpenOptions};
use std::io::{ErrorKind, Seek, SeekFrom};
use std::path::PathBuf;
use std::{fs, io};

// So many links are followed, as the system does.
const LINKS: usize = 40;

// Whether a certificate may be saved at a place: nothing stands there, or a certificate. What can't be opened can't be told from another
// file.
pub(crate) fn check_free(rt: &HostRuntime, name: &[u8]) -> Result<(), Told> {
    match open_update(rt, name) {
        Ok(mut file) => check_certificate(rt, &mut file, name),
        Err(error) if error.kind() == ErrorKind::NotFound => Ok(()),
        Err(error) => Err(fail(rt, name, error)),
    }
}

fn open_update(rt: &HostRuntime, name: &[u8]) -> io::Result<File> {
    OpenOptions::new()
        .read(true)
        .write(true)
        .open(rt, path(name)?)
}

// Whether an open file is a certificate. A pipe or a terminal has no end to be sought.
fn check_certificate(rt: &HostRuntime, file: &mut File, name: &[u8]) -> Result<(), Told> {
    let Ok(end) = file.seek(SeekFrom::End(0)) else {
        return Err(tell(
            rt,
            name,
            b"isn't a regular file, so no certificate is written to it",
        ));
    };
    if end <= CERTIFICATE as u64 && starts_as_one(file) {
        Ok(())
    } else {
        Err(tell(
            rt,
            name,
            b"exists and isn't a certificate, so it stays as it is",
        ))
    }
}

fn starts_as_one(file: &mut File) -> bool {
    let mut space = blank_certificate();
    let _ = file.rewind();
    let n = fill(file, &mut space).unwrap_or_else(|cut| cut.bytes);
    records::tables::shape_of(&space[..n]).is_some()
}

// Puts the name of what a name leads to at the front of the space, and answers its length. After an error the space has any bytes.
pub(crate) fn follow(rt: &HostRuntime, name: &[u8], space: &mut [u8]) -> io::Result<usize>
    ensures ok { IfOk result (λ n. n ≤ length space.new) }
    ensures kept { length space.new ≡ length space.old }
{
    let mut n = put::put_bytes(space, 0, name);
    for _ in 0..LINKS {
        let Some(link) = leads(rt, below::front(space, n))? else {
            break;
        };
        let to = link.as_str().as_bytes();
        let start = if to.starts_with(b"/") {
            0
        } else {
            folder(below::front(space, n))
        };
        n = start.saturating_add(put::put_bytes(space, start, to));
    }
    Ok(n.min(space.len()))
}

// Where a link leads: another name, or one beside it. What isn't a link leads nowhere.
fn leads(rt: &HostRuntime, name: &[u8]) -> io::Result<Option<PathBuf>> {
    if name.len() >= NAME {
        return Ok(None);
    }
    match fs::read_link(rt, path(name)?) {
        Ok(link) => Ok(Some(link).filter(|to| !to.as_str().is_empty())),
        Err(error) if error.raw_os_error().is_some() => Ok(None),
        Err(error) => Err(unread(error)),
    }
}

// Why std doesn't answer where a link leads: a name that isn't text, or a lack of memory.
fn unread(error: io::Error) -> io::Error {
    if error.kind() == ErrorKind::OutOfMemory {
        return error;
    }
    io::Error::new(
        ErrorKind::InvalidFilename,
        "leads to a name that isn't UTF-8, so it can't be followed",
    )
}

// How many bytes of a name lead to its folder, the last `/` among them.
fn folder(name: &[u8]) -> usize {
    name.iter()
        .rposition(|byte| *byte == b'/')
        .map_or(0, |at| at + 1)
}
