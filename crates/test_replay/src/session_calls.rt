// The calls of the spectator session, by their numbers in docs/REPLAY.md, and its state.
use crate::endpoint_calls::put_stats;
use crate::out::Out;
use crate::played::{Called, Played};
use crate::record::{Call, Record};
use crate::snapshot::{put_endpoint, put_statuses};
use crate::stop::Stop;
use crate::value::{message_of, payload_of, session_setup_of};
use answer::{Answer, Refusal};
use ceilings::MOST_PLAYERS;
use spectator::{Ended, Inputs, Request, Requests, SessionEvents, SpectatorSession};
use spectator_rules::{InputStatus, SessionEntry, SessionEvent, SessionState};

impl Played for SpectatorSession {
    fn made(part: &[u8], now: u64) -> Result<SpectatorSession, Refusal> {
        let made = SpectatorSession::new(session_setup_of(part), now);
        made.answer.map(|()| made.session)
    }

    fn called(self, record: &Record, part: &[u8], out: &mut [u8]) -> Called<SpectatorSession> {
        if record.call == Call::Act {
            let polled = self.poll_remote_clients(record.now, record.epoch, record.nonce, out);
            return Called {
                object: polled.session,
                answer: polled.answer,
            };
        }
        let ended = changed(self, record, part, out);
        Called {
            object: ended.session,
            answer: ended.answer.map(|()| 0),
        }
    }

    fn put_given(
        self,
        out: Out,
        record: &Record,
        array: &[u8],
        filled: usize,
    ) -> Result<Out, Stop> {
        match record.call {
            Call::Act => out.part(text::filled(array, filled)),
            Call::NetworkStats => match self.network_stats(record.epoch) {
                Ok(stats) => put_stats(out, stats),
                Err(_) => Ok(out),
            },
            Call::TakeEvents => put_events(out, self.take_events().events),
            Call::TakeMessages => out.part(self.messages(text::filled(array, record.buffer))),
            Call::Getters => out
                .flag(is_running(self.current_state()))?
                .frame(self.current_frame())?
                .u32(self.num_players()),
            Call::Advance => match self.advance_frame().answer {
                Ok(requests) => put_requests(out, requests, self.host.setup.input_size),
                Err(_) => Ok(out),
            },
            Call::FramesBehind => match self.frames_behind_host() {
                Ok(n) => out.u32(n),
                Err(_) => Ok(out),
            },
            _ => Ok(out),
        }
    }

    fn put_state(self, out: Out, array: &[u8]) -> Result<Out, Stop> {
        let out = put_standing(out, self)?;
        let setup = self.host.setup;
        let out = put_inputs(out, &self.inputs, setup.num_players, setup.input_size)?;
        let out = put_statuses(out, self.statuses)?;
        let out = put_events(out, self.events)?;
        put_endpoint(out, self.host, array)
    }
}

fn changed(session: SpectatorSession, record: &Record, part: &[u8], out: &mut [u8]) -> Ended {
    let Record {
        now,
        epoch,
        nonce,
        ..
    } = *record;
    match record.call {
        Call::Synchronize => session.synchronize(now, epoch, nonce, out),
        Call::Datagram | Call::Carry => {
            session.datagram(record.number, part, now, epoch, nonce, out)
        }
        Call::Message => session.message(
            record.number,
            message_of(part),
            payload_of(part),
            now,
            epoch,
            nonce,
            out,
        ),
        Call::TakeEvents => Ended {
            session: session.take_events().session,
            answer: Ok(()),
        },
        Call::TakeMessages => session.take_messages(out),
        Call::Advance => {
            let advanced = session.advance_frame();
            Ended {
                session: advanced.session,
                answer: advanced.answer.map(|_| ()),
            }
        }
        _ => Ended {
            session,
            answer: asked(session, record),
        },
    }
}

// What a call that only asks is answered.
fn asked(session: SpectatorSession, record: &Record) -> Answer {
    match record.call {
        Call::NetworkStats => session.network_stats(record.epoch).map(|_| ()),
        Call::FramesBehind => session.frames_behind_host().map(|_| ()),
        _ => Ok(()),
    }
}

fn put_requests(out: Out, requests: Requests, size: u32) -> Result<Out, Stop> {
    let frames = requests.frames.as_slice();
    let mut out = out.count(frames.len())?.u8((size % 0x100) as u8)?;
    for request in frames {
        out = put_request(out, request, size)?;
    }
    Ok(out)
}

fn put_request(out: Out, request: &Request, size: u32) -> Result<Out, Stop> {
    let inputs = request.inputs.as_slice();
    let mut out = out.u8((inputs.len() % 0x100) as u8)?;
    for synced in inputs {
        out = out
            .bytes(text::filled(&synced.input, size as usize))?
            .u8(match synced.status {
                InputStatus::Confirmed => 0,
                InputStatus::Disconnected => 2,
            })?;
    }
    Ok(out)
}

fn is_running(state: SessionState) -> bool {
    matches!(state, SessionState::Running)
}

// What the setup fixed, and where the session stands.
fn put_standing(out: Out, session: SpectatorSession) -> Result<Out, Stop> {
    out.u8(if is_running(session.state) { 2 } else { 1 })?
        .u32(session.host.setup.num_players)?
        .u32(session.limits.max_frames_behind)?
        .u32(session.limits.catchup_speed)?
        .frame(session.current_frame)?
        .frame(session.last_recv_frame)?
        .u32(session.limits.slots)
}

// Four places a slot; those above the players are none.
fn put_inputs(out: Out, inputs: &Inputs, players: u32, size: u32) -> Result<Out, Stop> {
    let mut out = out;
    for (i, input) in inputs.entries.as_slice().iter().enumerate() {
        if i % MOST_PLAYERS < players as usize {
            out = out
                .frame(input.frame)?
                .bytes(text::filled(&input.input, size as usize))?;
        }
    }
    Ok(out)
}

fn put_events(out: Out, events: SessionEvents) -> Result<Out, Stop> {
    let entries = events.entries.as_slice();
    let mut out = out.count(entries.len())?;
    for entry in entries {
        out = put_event(out, *entry)?;
    }
    Ok(out)
}

// An endpoint's event with its address behind the tag.
fn put_event(out: Out, entry: SessionEntry) -> Result<Out, Stop> {
    let addr = entry.addr;
    match entry.event {
        SessionEvent::Synchronizing { total, count } => {
            out.u8(0)?.u32(addr)?.u32(total)?.u32(count)
        }
        SessionEvent::Synchronized => out.u8(1)?.u32(addr),
        SessionEvent::Disconnected => out.u8(3)?.u32(addr),
        SessionEvent::NetworkInterrupted { disconnect_timeout } => {
            out.u8(4)?.u32(addr)?.u64(disconnect_timeout)
        }
        SessionEvent::NetworkResumed => out.u8(5)?.u32(addr),
    }
}
