// One end of the line: an endpoint, the buffer that it is lent, and what its owner keeps for it. A method makes one call of the endpoint, or shows what one answers.
// (Some methods read as the host's of demo_watch: a public function of a library states a contract, and what prints has none.)
use crate::lines;
use demo_ends::Datagrams;
use endpoint::{Ended, Endpoint, Event, Statuses};
use std::io;

const NUM_PLAYERS: usize = 2;

// The epoch, in milliseconds, when a bout's clock stands at 0.
const EPOCH: u64 = 1700000000000;

// Who sits at an end: a letter, by which the other end knows it too, and the player whose inputs come from here.
#[derive(Clone, Copy)]
pub(crate) struct Seat {
    pub name: u8,
    pub player: u32,
}

#[derive(Clone, Copy)]
pub(crate) struct End {
    pub seat: Seat,
    pub endpoint: Endpoint,
    pub queue: [u8; 1024],
    pub statuses: Statuses,
}

fn epoch(now: u32) -> u64 {
    EPOCH + u64::from(now)
}

impl End {
    pub(crate) fn new(rt: &impl Print, own: Seat, other: Seat, now: u32) -> io::Result<End> {
        let setup = demo_ends::two_players(own.name.into(), other.name.into(), other.player);
        let made = Endpoint::new(setup, now.into());
        lines::refusal(rt, own.name, made.answer.err())?;
        Ok(End {
            seat: own,
            endpoint: made.endpoint,
            queue: [0; 1024],
            statuses: Statuses::new(NUM_PLAYERS),
        })
    }

    // What a call leaves. A refusal is printed; endpoint and queue are then as they were.
    fn after(&mut self, rt: &impl Print, ended: Ended) -> io::Result<()> {
        self.endpoint = ended.endpoint;
        lines::refusal(rt, self.seat.name, ended.answer.err())
    }

    // The time serves as the nonce, where a game draws one at random: no end makes two requests at one time.
    pub(crate) fn synchronize(&mut self, rt: &impl Print, now: u32) -> io::Result<()> {
        let ended = self
            .endpoint
            .synchronize(now.into(), epoch(now), now, &mut self.queue);
        self.after(rt, ended)
    }

    // The own status says up to which frame the own inputs are there.
    pub(crate) fn send_input(
        &mut self,
        rt: &impl Print,
        frame: i32,
        input: u8,
        now: u32,
    ) -> io::Result<()> {
        let frame = frame::from_signed(frame);
        let player = self.seat.player as usize;
        self.statuses = self.statuses.merge_report(player, false, frame);
        let ended = self.endpoint.send_input(
            frame,
            &[input],
            self.statuses,
            now.into(),
            &mut self.queue,
        );
        self.after(rt, ended)
    }

    // Before the endpoint acts, it is given the frame at which the game stands.
    pub(crate) fn update_local_frame_advantage(
        &mut self,
        rt: &impl Print,
        frame: i32,
    ) -> io::Result<()> {
        let ended = self
            .endpoint
            .update_local_frame_advantage(frame::from_signed(frame));
        self.after(rt, ended)
    }

    pub(crate) fn act(&mut self, rt: &impl Print, now: u32) -> io::Result<()> {
        let ended = self.endpoint.act(self.statuses, now.into(), epoch(now), now, &mut self.queue);
        self.after(rt, ended)
    }

    // A datagram arrives from the other end.
    fn datagram(
        &mut self,
        rt: &impl Print,
        from: u32,
        datagram: &[u8],
        now: u32,
    ) -> io::Result<()> {
        let ended = self.endpoint.datagram(
            from,
            datagram,
            now.into(),
            epoch(now),
            now,
            &mut self.queue,
        );
        self.after(rt, ended)
    }

    // All that the other end has queued arrives, a message in each datagram. Its queue stays, and may arrive again.
    pub(crate) fn receive(&mut self, rt: &impl Print, other: &End, now: u32) -> io::Result<()> {
        let from = other.seat.name.into();
        for datagram in Datagrams(other.endpoint.messages(&other.queue)) {
            self.datagram(rt, from, datagram, now)?;
        }
        Ok(())
    }

    // The queue is emptied: what was in it is sent, or lost.
    pub(crate) fn take_messages(&mut self, rt: &impl Print) -> io::Result<()> {
        let ended = self.endpoint.take_messages(&self.queue);
        self.after(rt, ended)
    }

    // The events are shown, and the frames that arrived are noted in the statuses.
    pub(crate) fn take_events(&mut self, rt: &impl Print) -> io::Result<()> {
        let taken = self.endpoint.take_events();
        self.endpoint = taken.endpoint;
        for entry in taken.events.entries.as_slice() {
            if let Event::Input { frame, player } = entry.event {
                self.statuses = self.statuses.merge_report(player as usize, false, frame);
            }
        }
        lines::events(rt, self.seat.name, taken.events)
    }

    pub(crate) fn show_messages(&self, rt: &impl Print, fate: &[u8]) -> io::Result<()> {
        for datagram in Datagrams(self.endpoint.messages(&self.queue)) {
            lines::message(rt, self.seat.name, fate, datagram)?;
        }
        Ok(())
    }

    pub(crate) fn disconnect(&mut self, rt: &impl Print, now: u32) -> io::Result<()> {
        let ended = self.endpoint.disconnect(now.into());
        self.after(rt, ended)
    }

    pub(crate) fn show_stats(&self, rt: &impl Print, now: u32) -> io::Result<()> {
        lines::stats(rt, self.seat.name, self.endpoint.network_stats(epoch(now)))
    }

    pub(crate) fn show_state(&self, rt: &impl Print) -> io::Result<()> {
        lines::state(rt, self.seat.name, self.endpoint.state())
    }
}
