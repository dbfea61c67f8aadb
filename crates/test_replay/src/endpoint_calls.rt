// The calls of an endpoint, by their numbers in docs/REPLAY.md.
use crate::out::Out;
use crate::played::{Called, Played};
use crate::record::{Call, Record};
use crate::snapshot::{put_endpoint, put_events, put_handles, put_status};
use crate::stop::Stop;
use crate::value::{message_of, payload_of, setup_of, wide_at};
use answer::{Answer, Refusal};
use endpoint::{Ended, Endpoint, NetworkStats};

impl Played for Endpoint {
    fn made(part: &[u8], now: u64) -> Result<Endpoint, Refusal> {
        let made = Endpoint::new(setup_of(part), now);
        made.answer.map(|()| made.endpoint)
    }

    fn called(self, record: &Record, part: &[u8], out: &mut [u8]) -> Called<Endpoint> {
        let ended = changed(self, record, part, out);
        Called {
            object: ended.endpoint,
            answer: ended.answer.map(|()| 0),
        }
    }

    fn put_given(
        self,
        out: Out,
        record: &Record,
        array: &[u8],
        _filled: usize,
    ) -> Result<Out, Stop> {
        match record.call {
            Call::NetworkStats => match self.network_stats(record.epoch) {
                Ok(stats) => put_stats(out, stats),
                Err(_) => Ok(out),
            },
            Call::PeerConnectStatus => match self.peer_connect_status(record.number as usize) {
                Ok(status) => put_status(out, status),
                Err(_) => Ok(out),
            },
            Call::TakeEvents => put_events(out, self.take_events().events, self.setup.input_size),
            Call::TakeMessages => out.part(self.messages(text::filled(array, record.buffer))),
            Call::Getters => put_handles(out, self.handles())?
                .flag(self.is_synchronized())?
                .flag(self.is_running())?
                .flag(self.is_handling_message(record.number))?
                .frame(self.last_recv_frame()),
            _ => Ok(out),
        }
    }

    fn put_state(self, out: Out, array: &[u8]) -> Result<Out, Stop> {
        put_endpoint(out, self, array)
    }
}

fn changed(endpoint: Endpoint, record: &Record, part: &[u8], out: &mut [u8]) -> Ended {
    let Record {
        now,
        epoch,
        nonce,
        ..
    } = *record;
    match record.call {
        Call::Synchronize => endpoint.synchronize(now, epoch, nonce, out),
        Call::Datagram | Call::Carry => {
            endpoint.datagram(record.number, part, now, epoch, nonce, out)
        }
        Call::Message => endpoint.message(
            record.number,
            message_of(part),
            payload_of(part),
            now,
            epoch,
            nonce,
            out,
        ),
        Call::Act => endpoint.act(record.statuses, now, epoch, nonce, out),
        Call::SendInput => endpoint.send_input(record.frame, part, record.statuses, now, out),
        Call::Disconnect => endpoint.disconnect(now),
        Call::SendChecksumReport => {
            endpoint.send_checksum_report(record.frame, wide_at(part, 0), now, out)
        }
        Call::UpdateLocalFrameAdvantage => endpoint.update_local_frame_advantage(record.frame),
        Call::TakeEvents => Ended {
            endpoint: endpoint.take_events().endpoint,
            answer: Ok(()),
        },
        Call::TakeMessages => endpoint.take_messages(out),
        _ => Ended {
            endpoint,
            answer: asked(endpoint, record),
        },
    }
}

// What a call that only asks is answered.
fn asked(endpoint: Endpoint, record: &Record) -> Answer {
    match record.call {
        Call::NetworkStats => endpoint.network_stats(record.epoch).map(|_| ()),
        Call::PeerConnectStatus => endpoint
            .peer_connect_status(record.number as usize)
            .map(|_| ()),
        _ => Ok(()),
    }
}

pub(crate) fn put_stats(out: Out, stats: NetworkStats) -> Result<Out, Stop> {
    out.u64(stats.ping)?
        .count(stats.send_queue_len)?
        .frame(stats.local_frames_behind)?
        .frame(stats.remote_frames_behind)
}
