//! The program `rdreach`. Page: `docs/REACHING.md`.
#![tactic(auto)]

use rd_question::{refuse_words, run_main};
use std::process::ExitCode;
use std::{env, io};

// The words of the command line, without the program's own name.
fn command_words(rt: &HostRuntime) -> io::Result<Vec<String>> {
    Ok(env::args(rt)?.skip(1).collect(rt.alloc())?)
}

fn main(rt: HostRuntime) -> ExitCode {
    let mut errors = rt.stderr();
    let status = match command_words(&rt) {
        Ok(words) => run_main(
            &rt,
            words.as_slice(),
            &mut rt.stdin(),
            &mut rt.stdout(),
            &mut errors,
        ),
        Err(error) => refuse_words(&mut errors, &error),
    };
    ExitCode::from(status)
}
