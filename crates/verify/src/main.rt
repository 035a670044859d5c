// verify CIRCUIT CERTIFICATE checks a certificate for a circuit file (01, "The certificate") and prints `passed`, or `refused`, number
// and place.
#![tactic(auto)]

use below::filled;
use desk::Told;

// The longest certificate that is read. None that passes is so long.
const LONGEST: usize = 524288;

// One more: a longer one is known to be too long without being read to its end.
const SPACE: usize = LONGEST + 1;

fn main(rt: HostRuntime) {
    // Trouble has been told, and the exit status is 0 all the same.
    let _ = verify(&rt);
}

fn verify(rt: &HostRuntime) -> Result<(), Told> {
    if desk::argument_count(rt) != 3 {
        return Err(desk::tell(rt, b"usage", b"verify CIRCUIT CERTIFICATE"));
    }
    let mut space = desk::blank();
    let n = desk::read_argument(rt, 1, &mut space)?;
    verify_argument(rt, &space[..n], 2)
}

fn verify_argument(rt: &HostRuntime, file: &[u8], i: usize) -> Result<(), Told> {
    let mut name = [0; desk::NAME];
    let n = desk::argument(rt, i, &mut name)?;
    verify_file(rt, file, &name[..n])
}

fn verify_file(rt: &HostRuntime, file: &[u8], name: &[u8]) -> Result<(), Told> {
    let mut space: [u8; SPACE] = filled(0);
    let n = desk::read_file(rt, name, &mut space)?;
    if n > LONGEST {
        return Err(desk::tell(rt, name, b"longer than 524288 bytes"));
    }
    print_answer(rt, file, &space[..n]);
    Ok(())
}

fn print_answer(rt: &HostRuntime, file: &[u8], certificate: &[u8]) {
    match checker::check(file, certificate) {
        Ok(_) => desk::print_end(rt, rt.write_all(b"passed")),
        Err(refusal) => desk::print_refusal(rt, refusal),
    }
}
