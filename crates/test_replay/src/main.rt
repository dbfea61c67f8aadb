// Runs a script of calls on two endpoints and a spectator session and writes the canonical answers: docs/REPLAY.md.
#![tactic(auto)]

mod crc;
mod endpoint_calls;
mod little;
mod out;
mod played;
mod record;
mod script;
mod session_calls;
mod snapshot;
mod stop;
mod value;

use endpoint::Endpoint;
use out::Mode;
use played::{Arrays, answered};
use record::{BUFFER_MAX, Object};
use spectator::SpectatorSession;
use std::io::{Stdin, Stdout};
use std::process::ExitCode;
use stop::Stop;

// A proved loop has to end, and nothing says that the input does.
const MOST: usize = 100000000;

fn main(rt: HostRuntime) -> ExitCode {
    match answer_script(&mut rt.stdin(), rt.stdout()) {
        Ok(()) => ExitCode::SUCCESS,
        Err(stop) => {
            // Where this line cannot be written, nobody is left to be told.
            let _ = eprintln!(rt; "replay: {stop}");
            stop.status()
        }
    }
}

// Each object answers its own records.
fn answer_script(input: &mut Stdin, output: Stdout) -> Result<(), Stop> {
    let mode = script::read_mode(input)?;
    let mut arrays = Arrays::new();
    let mut payload = [0; BUFFER_MAX];
    let mut first: Option<Endpoint> = None;
    let mut second: Option<Endpoint> = None;
    let mut session: Option<SpectatorSession> = None;
    for at in 0..MOST {
        let Some(record) = script::next_record(input, at, &mut payload)? else {
            break;
        };
        let length = script::part_of(&record, &mut payload, &arrays);
        let part = length.map(|n| text::filled(&payload, n));
        match record.object {
            Object::First => {
                first = answered(output, mode, first, &record, part, &mut arrays.first)?;
            }
            Object::Second => {
                second = answered(output, mode, second, &record, part, &mut arrays.second)?;
            }
            Object::Session => {
                session = answered(output, mode, session, &record, part, &mut arrays.session)?;
            }
        }
    }
    Ok(())
}
