// A host's endpoint feeds a viewing box over a line that this program holds. docs/WATCH.md goes through it.
#![tactic(auto)]

mod ends;
mod host;
mod line;
mod lines;
mod show;
mod viewer;

use std::process::ExitCode;

// It reads as in the other demos: a public function of a library states a contract, and what prints has none.
fn main(rt: HostRuntime) -> ExitCode {
    if show::run(&rt).is_ok() {
        return ExitCode::SUCCESS;
    }
    // Where this line fails too, nobody is left to be told.
    let _ = eprintln!(rt; "demo_watch: standard output cannot be written");
    ExitCode::FAILURE
}
