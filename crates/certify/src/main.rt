// certify CIRCUIT CERTIFICATE [packed] writes the certificate of a circuit file (01, "The certificate"), with the word `packed` that of packed
// replies (02, T-07), and prints the verdict and how many bytes it has. Of a file that is refused it prints `refused`, number and place, and
// the certificate's file stays as it was.
#![tactic(auto)]

use below::front;
use desk::Told;
use desk::save::save_argument;
use records::ReplyKind;
use writer::Certified;

fn main(rt: HostRuntime) {
    // Trouble has been told, and the exit status is 0 all the same.
    let _ = certify(&rt);
}

fn certify(rt: &HostRuntime) -> Result<(), Told> {
    let kind = kind_asked(rt)?;
    let mut space = desk::blank();
    let n = desk::read_argument(rt, 1, &mut space)?;
    certify_file(rt, kind, &space[..n])
}

fn kind_asked(rt: &HostRuntime) -> Result<ReplyKind, Told> {
    match desk::argument_count(rt) {
        3 => Ok(ReplyKind::Bytes),
        4 if is_packed(rt) => Ok(ReplyKind::Packed),
        _ => Err(desk::tell(rt, b"usage", b"certify CIRCUIT CERTIFICATE [packed]")),
    }
}

// Whether the third argument is the word `packed`.
fn is_packed(rt: &HostRuntime) -> bool {
    let mut word = [0; desk::NAME];
    desk::argument(rt, 3, &mut word).is_ok_and(|n| &word[..n] == b"packed".as_slice())
}

fn certify_file(rt: &HostRuntime, kind: ReplyKind, file: &[u8]) -> Result<(), Told> {
    let mut certificate = desk::blank_certificate();
    match writer::certify(kind, file, &mut certificate) {
        Ok(Certified::Realizable(n)) => keep(rt, front(&certificate, n), b"realizable "),
        Ok(Certified::Unrealizable(n)) => keep(rt, front(&certificate, n), b"unrealizable "),
        Err(refusal) => {
            desk::print_refusal(rt, refusal);
            Ok(())
        }
    }
}

// The certificate is saved; then the verdict is printed.
fn keep(rt: &HostRuntime, certificate: &[u8], verdict: &[u8]) -> Result<(), Told> {
    save_argument(rt, 2, certificate)?;
    desk::print_end(
        rt,
        desk::print_number(rt, verdict, certificate.len() as u64),
    );
    Ok(())
}
