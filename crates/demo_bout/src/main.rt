// Two endpoints play a bout over a line that this program holds. docs/BOUT.md goes through it.
#![tactic(auto)]

mod ends;
mod exchange;
mod lines;
mod table;

use std::process::ExitCode;

// It reads as in the other demos: a public function of a library states a contract, and what prints has none.
fn main(rt: HostRuntime) -> ExitCode {
    if exchange::run(&rt).is_ok() {
        return ExitCode::SUCCESS;
    }
    // Where this line fails too, nobody is left to be told.
    let _ = eprintln!(rt; "demo_bout: standard output cannot be written");
    ExitCode::FAILURE
}
