// What the programs share: the arguments, a file read whole, a file saved, a refusal printed. Trouble is told at once, as one line on
// standard error. Names, files and certificates stand in arrays with a count beside, so no memory can run out for them; where a link leads is told
// by std on the heap.
#![tactic(auto)]

mod place;
pub mod save;
mod trouble;

ghost use Rattle.std.specs.Prelude.{◌≡◌, ◌+◌, ◌<◌, length, replicate, take, IfOk, IfErr};
ghost use Rattle.std.specs.Io.KnownBytes.{Consumes, IsAtEnd};
ghost use Rattle.desk.specs.Counts.{IsPrefixLen, filled_bytes, read_bytes};
ghost use Rattle.circuit.specs.Limits.{base};

use circuit::{Circuit, Refusal};
use records::HEAD;
use std::env::{Env, FillError};
use std::io::Read;
use std::{fs, io};
use trouble::{fail, missing_argument, path, print_line};

// The longest certificate that is written: three records, with a file, a region and replies at their limits.
pub const CERTIFICATE: usize = 3 * HEAD + Circuit::FILE + Circuit::REGION + Circuit::REPLIES;

// As many bytes as hold any name of a file that the system takes.
pub const NAME: usize = 4096;

// Trouble that has been told. So many bytes stand at the front of a space that was to be filled all the same.
#[derive(Clone, Copy, Debug, PartialEq, Eq)]
pub struct Told {
    pub bytes: usize,
}

// Zeros, one more than a file may have: a longer one is known to be too long without being read to its end.
pub fn blank() -> [u8; Circuit::FILE + 1]
    ensures len { base.file + 1 ≡ length result }
    ensures zeros { result ≡ replicate (base.file + 1) 0 }
{
    [0; Circuit::FILE + 1]
}

// Zeros, as many as the longest certificate has bytes (writer, `longest_certificate`).
pub fn blank_certificate() -> [u8; CERTIFICATE]
    ensures len { 49298 ≡ length result }
    ensures zeros { result ≡ replicate 49298 0 }
{
    [0; CERTIFICATE]
}

// How many arguments there are, the program's own name among them.
pub fn argument_count(rt: &HostRuntime) -> usize {
    (0..usize::MAX).take_while(|&i| has_argument(rt, i)).count()
}

// No byte is asked for: one that is there and has some is too long.
fn has_argument(rt: &HostRuntime, i: usize) -> bool {
    !matches!(rt.arg(i, &mut []), Err(FillError::NotPresent))
}

// Fills the space with an argument, and answers how many bytes it has.
pub fn argument(rt: &HostRuntime, i: usize, space: &mut [u8]) -> Result<usize, Told>
    ensures prefix_len { IsPrefixLen (filled_bytes result) space.new }
    ensures trouble { IfErr result (λ told. told.bytes ≡ 0) }
{
    rt.arg(i, space)
        .map_err(|why| fail(rt, b"argument", missing_argument(why)))
}

// Fills the space with the file that an argument names, as far as it goes.
pub fn read_argument(rt: &HostRuntime, i: usize, space: &mut [u8]) -> Result<usize, Told>
    ensures { IsPrefixLen (filled_bytes result) space.new }
{
    let mut name = [0; NAME];
    let n = argument(rt, i, &mut name)?;
    read_file(rt, &name[..n], space)
}

// Fills the space with the file of this name, as far as it goes.
pub fn read_file(rt: &HostRuntime, name: &[u8], space: &mut [u8]) -> Result<usize, Told>
    ensures { IsPrefixLen (filled_bytes result) space.new }
{
    let mut file = open(rt, name).map_err(|error| fail(rt, name, error))?;
    read_open(rt, &mut file, name, space)
}

fn open(rt: &HostRuntime, name: &[u8]) -> io::Result<fs::File> {
    fs::open(rt, path(name)?)
}

// Fills the space with what an open file or another reader gives, as far as it goes.
pub fn read_open<R: Read>(
    rt: &HostRuntime,
    reader: &mut R,
    name: &[u8],
    space: &mut [u8],
) -> Result<usize, Told>
    ensures prefix_len { IsPrefixLen (filled_bytes result) space.new }
    ensures known { Consumes (R.remaining reader.old) (R.remaining reader.new) (take (filled_bytes result) space.new) }
    ensures end { IfOk result (λ n. n < length space.new → IsAtEnd (R.remaining reader.new)) }
{
    fill(reader, space).map_err(|cut| {
        fail(rt, name, cut.error);
        Told { bytes: cut.bytes }
    })
}

// A read that failed, behind so many bytes.
#[derive(Drop)]
pub(crate) struct Cut {
    pub bytes: usize,
    pub error: io::Error,
}

// Fills the space until it is full, the reader ends or a read fails, and answers how many bytes stand at the front. Each read goes on where
// the last one ended.
pub(crate) fn fill<R: Read>(reader: &mut R, space: &mut [u8]) -> Result<usize, Cut>
    ensures prefix_len { IsPrefixLen (read_bytes result) space.new }
    ensures known { Consumes (R.remaining reader.old) (R.remaining reader.new) (take (read_bytes result) space.new) }
    ensures end { IfOk result (λ n. n < length space.new → IsAtEnd (R.remaining reader.new)) }
{
    let mut n = 0;
    // Kept as a loop by hand: `read_to_end`, which says how many bytes came before an error, puts them on the heap.
    while n < space.len() {
        match reader.read(&mut space[n..]) {
            Ok(0) => break,
            Ok(more) => n += more,
            Err(error) => return Err(Cut { bytes: n, error }),
        }
    }
    Ok(n)
}

// A refusal as a line: `refused`, number and place.
pub fn print_refusal(rt: &HostRuntime, refusal: Refusal) {
    tell_unwritten(rt, rt.println(refusal));
}

// A number behind a text, or why they couldn't be written whole.
pub fn print_number(rt: &HostRuntime, text: &[u8], n: u64) -> io::Result<()> {
    rt.write_all(text)?;
    rt.print(n)
}

// Ends a line, and tells if it couldn't be written whole.
pub fn print_end(rt: &HostRuntime, written: io::Result<()>) {
    let ended = rt.write_all(b"\n");
    tell_unwritten(rt, ended.and(written));
}

fn tell_unwritten(rt: &HostRuntime, written: io::Result<()>) {
    if let Err(error) = written {
        fail(rt, b"standard output", error);
    }
}

// Prints the first n bytes of a page, or all if it has fewer.
pub fn print_front(rt: &HostRuntime, page: &[u8], n: usize) {
    tell_unwritten(rt, rt.write_all(below::front(page, n)));
}

// Tells trouble that the system has no words for.
pub fn tell(rt: &HostRuntime, what: &[u8], trouble: &[u8]) -> Told {
    print_line(rt, what, trouble);
    Told { bytes: 0 }
}
