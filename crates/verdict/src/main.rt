// The verdict program (01, "Listings to compare"): a circuit on standard input, its listing or refusal on standard output.
#![tactic(auto)]

use below::filled;
use circuit::Circuit;
use desk::Told;

// Enough for every page (listing, `longest_page`): verdict and counts; per state its number, in or out, and a reply of at most three digits
// for each reading, with what parts them.
const PAGE: usize = 18 + Circuit::STATES * 7 + Circuit::REPLIES * 4;

fn main(rt: HostRuntime) {
    // Trouble has been told, and the exit status is 0 all the same.
    let _ = print_verdict(&rt);
}

fn print_verdict(rt: &HostRuntime) -> Result<(), Told> {
    let mut space = desk::blank();
    let n = desk::read_open(rt, &mut rt.stdin(), b"standard input", &mut space)?;
    let mut page: [u8; PAGE] = filled(0);
    match listing::list(&space[..n], &mut page) {
        Ok(bytes) => desk::print_front(rt, &page, bytes),
        Err(refusal) => desk::print_refusal(rt, refusal),
    }
    Ok(())
}
