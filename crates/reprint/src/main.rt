// Prints the circuit on standard input (01, "The numbers", last paragraph), or `refused`, number and place.
#![tactic(auto)]

use desk::Told;

fn main(rt: HostRuntime) {
    // Trouble has been told, and the exit status is 0 all the same.
    let _ = reprint(&rt);
}

fn reprint(rt: &HostRuntime) -> Result<(), Told> {
    let mut space = desk::blank();
    let n = desk::read_open(rt, &mut rt.stdin(), b"standard input", &mut space)?;
    let mut page = desk::blank();
    match printer::print(&space[..n], &mut page) {
        Ok(bytes) => desk::print_front(rt, &page, bytes),
        Err(refusal) => desk::print_refusal(rt, refusal),
    }
    Ok(())
}
