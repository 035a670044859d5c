// Reads the files that its arguments name, and prints a line for each (01, "The numbers"): `NAME: taken` or `NAME: refused N PLACE`.
#![tactic(auto)]

use desk::Told;

fn main(rt: HostRuntime) {
    for i in 1..desk::argument_count(&rt) {
        // Trouble has been told, and the next file is taken.
        let _ = answer_argument(&rt, i);
    }
}

fn answer_argument(rt: &HostRuntime, i: usize) -> Result<(), Told> {
    let mut name = [0; desk::NAME];
    let n = desk::argument(rt, i, &mut name)?;
    answer_file(rt, &name[..n])
}

fn answer_file(rt: &HostRuntime, name: &[u8]) -> Result<(), Told> {
    let mut space = desk::blank();
    let n = desk::read_file(rt, name, &mut space)?;
    let answer = file::read(&space[..n]);
    let _ = rt.write_all(name);
    let _ = rt.write_all(b": ");
    match answer {
        Ok(_) => {
            let _ = rt.write_all(b"taken\n");
        }
        Err(refusal) => desk::print_refusal(rt, refusal),
    }
    Ok(())
}
