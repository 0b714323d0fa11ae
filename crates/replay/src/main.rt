// Replays recorded answers on the seven calls and the leaf magnitude, and prints how many differ: those of the Rust,
// and for solve and LAPACK's pivot lists, which the Rust does not have, those of the oracle's restatements. A case
// differs if the answer's number, place, rounds or counts do, or the bits of a buffer; one of the magnitude, if its
// bits do.
// data/answers has the cases; data/LEGEND says what made them, what they meet and how they are written.
// Proved is that the program is safe and ends. What stands in a file no contract can say: the run is the test.
// Nothing of it is public: what one module has of another is the crate's own, pub(crate).
// file.rt reads lists and holds buffers to them, calls.rt has one function for each of the eight, sum.rt the checksum
// by which a damaged or short file is noticed.
#![tactic(auto)]

mod calls;
mod file;
mod sum;

use file::Answers;
use std::fs;

fn say<P: Print>(out: &P, name: &[u8], number: usize, what: &[u8]) {
    let _ = out.write_all(name);
    let _ = out.write_all(b" ");
    let _ = print!(out; "{number}");
    let _ = out.write_all(what);
}

// So many cases of a call, or of the leaf. `same` says whether the next one is answered as recorded.
fn replay<P: Print, F: Fn(&mut Answers) -> bool>(
    out: &P,
    answers: &mut Answers,
    name: &[u8],
    cases: usize,
    same: F,
)
    requires { F.IsAlwaysCallable same }
{
    let mut differ: usize = 0;
    for i in 0..cases {
        if !same(answers) {
            say(out, name, i, b" differs\n");
            differ += 1;
        }
    }
    say(out, name, cases, b" replayed, ");
    let _ = println!(out; "{differ} differ");
}

// All cases of the file, from its head on.
fn replay_all<P: Print>(out: &P, answers: &mut Answers) {
    // the head, which sum.rt looks at
    answers.bytes::<12>();
    let factors = answers.count();
    let inertias = answers.count();
    let assemblies = answers.count();
    let updates = answers.count();
    let solves = answers.count();
    let magnitudes = answers.count();
    let lists = answers.count();
    let orders = answers.count();
    replay(out, answers, b"factor", factors, calls::factor_case);
    replay(out, answers, b"inertia", inertias, calls::inertia_case);
    replay(out, answers, b"assembly", assemblies, calls::assembly_case);
    replay(out, answers, b"update", updates, calls::update_case);
    replay(out, answers, b"solve", solves, calls::solve_case);
    replay(
        out,
        answers,
        b"magnitude",
        magnitudes,
        calls::magnitude_case,
    );
    replay(out, answers, b"to_lapack", lists, calls::to_lapack_case);
    replay(
        out,
        answers,
        b"from_lapack",
        orders,
        calls::from_lapack_case,
    );
}

fn main(rt: HostRuntime) {
    let path = "answers";
    match fs::open(&rt, path) {
        Ok(answers) => {
            if !sum::intact(&rt, path) {
                let _ = println!(rt; "the answers are damaged");
            }
            replay_all(&rt, &mut Answers::new(answers));
        }
        Err(error) => {
            let _ = eprintln!(rt; "{path}: {error}");
        }
    }
}
