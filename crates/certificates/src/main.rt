// certificates CIRCUIT .. prints two lines for each circuit file (01, "The certificate"): `NAME: VERDICT BYTES passed` of a certificate that
// is written and then passes, else `refused`, number and place at the end; then the same of packed replies (02, T-07).
#![tactic(auto)]

use below::front;
use desk::Told;
use records::ReplyKind;
use writer::Certified;

fn main(rt: HostRuntime) {
    for i in 1..desk::argument_count(&rt) {
        // Trouble has been told, and the next file is taken.
        let _ = certify_argument(&rt, i);
    }
}

fn certify_argument(rt: &HostRuntime, i: usize) -> Result<(), Told> {
    let mut name = [0; desk::NAME];
    let n = desk::argument(rt, i, &mut name)?;
    certify_file(rt, &name[..n])
}

fn certify_file(rt: &HostRuntime, name: &[u8]) -> Result<(), Told> {
    let mut space = desk::blank();
    let n = desk::read_file(rt, name, &mut space)?;
    let _ = rt.write_all(name);
    certify(rt, ReplyKind::Bytes, &space[..n]);
    let _ = rt.write_all(name);
    let _ = rt.write_all(b", packed");
    certify(rt, ReplyKind::Packed, &space[..n]);
    Ok(())
}

fn certify(rt: &HostRuntime, kind: ReplyKind, file: &[u8]) {
    let mut certificate = desk::blank_certificate();
    let answer = writer::certify(kind, file, &mut certificate);
    let _ = rt.write_all(b": ");
    match answer {
        Ok(Certified::Realizable(n)) => check(rt, file, front(&certificate, n), b"realizable "),
        Ok(Certified::Unrealizable(n)) => check(rt, file, front(&certificate, n), b"unrealizable "),
        Err(refusal) => desk::print_refusal(rt, refusal),
    }
}

// Prints the verdict and the bytes of a certificate, and whether it passes.
fn check(rt: &HostRuntime, file: &[u8], certificate: &[u8], verdict: &[u8]) {
    let _ = desk::print_number(rt, verdict, certificate.len() as u64);
    let _ = rt.write_all(b" ");
    match checker::check(file, certificate) {
        Ok(_) => desk::print_end(rt, rt.write_all(b"passed")),
        Err(refusal) => desk::print_refusal(rt, refusal),
    }
}
