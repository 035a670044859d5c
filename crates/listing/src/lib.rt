// The listing (01, "Listings to compare"): the page that the verdict program prints for a file, written at the front of a lent buffer.
#![tactic(auto)]

mod pages;
mod states;

ghost use Rattle.listing.specs.Page.{PageAs, page_of};

use circuit::Refusal;
use page::fit;
use pages::{Refused, Solved};

// Writes the page of a file at the front of the buffer: the listing of its circuit, or its refusal. Where the buffer is shorter than the
// page, nothing is written.
pub fn list(file: &[u8], out: &mut [u8]) -> Result<usize, Refusal>
    ensures { PageAs (page_of file.now) out.old out.new result }
{
    match file::read(file) {
        Ok(circuit) => {
            let counts = circuit.lent().counts();
            let solution = solver::solve(circuit);
            fit(
                out,
                &Solved {
                    counts,
                    solution: &solution,
                },
            )
        }
        Err(refusal) => fit(out, &Refused(refusal)),
    }
}
