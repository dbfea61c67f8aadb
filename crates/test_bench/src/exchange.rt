// Two endpoints that send each other every frame as bytes: each datagram is read when it arrives.
use crate::ends;
use crate::ends::{MAGIC, OTHER, PEER, START};
use demo_ends::Datagrams;
use endpoint::Endpoint;
use events::{Event, Events};
use frame::BIAS32;
use setup::Setup;
use status::Statuses;

// An end, and the buffer that it is lent.
#[derive(Clone, Copy)]
struct End {
    endpoint: Endpoint,
    out: [u8; 256],
}

// What one end has queued goes to the other, which plays; then the same the other way round.
pub(crate) fn run(count: u32) -> u64 {
    let mut a = End::new(ends::small(), OTHER);
    let mut b = End::new(
        Setup {
            magic: OTHER,
            ..ends::small()
        },
        MAGIC,
    );
    let mut sum = 0u64;
    for i in 0..count {
        let now = START + 16 * u64::from(i);
        sum = sum
            .wrapping_add(a.play(&mut b, i, now))
            .wrapping_add(b.play(&mut a, i, now));
    }
    sum
}

impl End {
    fn new(setup: Setup, other: u16) -> End {
        End {
            endpoint: ends::ready(setup, other),
            out: [0; 256],
        }
    }

    // The end hears what the other has queued, acts, hands over its events and sends its input; what the other had queued is taken. Gives what was queued
    // and announced, added up.
    fn play(&mut self, other: &mut End, i: u32, now: u64) -> u64 {
        let queue = other.endpoint.messages(&other.out);
        for datagram in Datagrams(queue) {
            let heard = self
                .endpoint
                .datagram(PEER, datagram, now, now, 0, &mut self.out);
            self.endpoint = heard.endpoint;
        }
        let acted = self
            .endpoint
            .act(Statuses::new(2), now, now, 0, &mut self.out);
        let taken = acted.endpoint.take_events();
        let sent = taken.endpoint.send_input(
            BIAS32.wrapping_add(i),
            &[(i % 256) as u8],
            Statuses::new(2),
            now,
            &mut self.out,
        );
        self.endpoint = sent.endpoint;
        let sum = event_sum(&taken.events).wrapping_add(queue.len() as u64);
        other.endpoint = other.endpoint.take_messages(&other.out).endpoint;
        sum
    }
}

fn event_sum(events: &Events) -> u64 {
    let mut sum = 0u64;
    for entry in events.entries.as_slice() {
        if let Event::Input { frame, player } = entry.event {
            sum = sum
                .wrapping_add(u64::from(frame.wrapping_sub(BIAS32)))
                .wrapping_add(u64::from(player))
                .wrapping_add(u64::from(entry.input[0]));
        }
    }
    sum
}
