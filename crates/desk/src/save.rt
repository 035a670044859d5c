// Saves bytes as a file: they are written under a temporary name beside its place, which is then renamed. So the file is never seen
// half written, and where there is trouble it stays as it was.
use crate::trouble::{fail, path};
use crate::{NAME, Told, argument, place};
use std::fs::{File, OpenOptions};
use std::io::{ErrorKind, Write};
use std::{fs, io, process};

// Saves a certificate's bytes as the file that an argument names. Nothing may stand there but a certificate.
pub fn save_argument(rt: &HostRuntime, i: usize, bytes: &[u8]) -> Result<(), Told> {
    let mut name = [0; NAME];
    let n = argument(rt, i, &mut name)?;
    place::check_free(rt, &name[..n])?;
    save_behind_links(rt, &name[..n], bytes)
}

fn save_behind_links(rt: &HostRuntime, name: &[u8], bytes: &[u8]) -> Result<(), Told> {
    let mut space = [0; NAME];
    let n = place::follow(rt, name, &mut space).map_err(|error| fail(rt, name, error))?;
    save(rt, &space[..n], bytes)
}

fn save(rt: &HostRuntime, name: &[u8], bytes: &[u8]) -> Result<(), Told> {
    let mut space = [0; NAME];
    let temporary = temporary_of(rt, name, &mut space);
    let file = create(rt, temporary).map_err(|error| fail_to_create(rt, temporary, name, error))?;
    write_through(file, bytes)
        .and_then(|()| rename(rt, temporary, name))
        .map_err(|error| {
            let told = fail(rt, name, error);
            let _ = remove(rt, temporary);
            told
        })
}

// The place's name, a full stop and the number of this process, which no other has. A name that is too long for the space can't be
// opened either.
fn temporary_of<'a>(rt: &HostRuntime, name: &[u8], space: &'a mut [u8; NAME]) -> &'a [u8] {
    let mut left = &mut space[..];
    let _ = left.write_all(name);
    let _ = write!(left, ".{}", process::id(rt.process()));
    let n = NAME.saturating_sub(left.len());
    &space[..n]
}

// A new file, where nothing stands, not even a link.
fn create(rt: &HostRuntime, name: &[u8]) -> io::Result<File> {
    OpenOptions::new()
        .write(true)
        .create_new(true)
        .open(rt, path(name)?)
}

fn remove(rt: &HostRuntime, name: &[u8]) -> io::Result<()> {
    fs::remove_file(rt, path(name)?)
}

// Only a temporary name that is taken is told: the others tell of the certificate's place.
fn fail_to_create(rt: &HostRuntime, temporary: &[u8], name: &[u8], error: io::Error) -> Told {
    let taken = error.kind() == ErrorKind::AlreadyExists;
    fail(rt, if taken { temporary } else { name }, error)
}

// Writes all, and closes the file. What the system has put off is written before: trouble with it shows no later.
fn write_through(mut file: File, bytes: &[u8]) -> io::Result<()> {
    file.write_all(bytes)?;
    file.sync_all()
}

fn rename(rt: &HostRuntime, from: &[u8], to: &[u8]) -> io::Result<()> {
    fs::rename(rt, path(from)?, path(to)?)
}
