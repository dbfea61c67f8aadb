// Two ends and what goes between them.
use crate::ends::{End, Seat};
use std::io;

#[derive(Clone, Copy)]
pub(crate) struct Table {
    pub a: End,
    pub b: End,
}

impl Table {
    // Each end begins the handshake. In a meeting A's request is answered at once, B's in the next: after six both have their five replies.
    pub(crate) fn synchronized(rt: &impl Print) -> io::Result<Table> {
        let own = Seat {
            name: b'A',
            player: 0,
        };
        let other = Seat {
            name: b'B',
            player: 1,
        };
        let mut table = Table {
            a: End::new(rt, own, other, 0)?,
            b: End::new(rt, other, own, 0)?,
        };
        table.a.synchronize(rt, 0)?;
        table.b.synchronize(rt, 0)?;
        for now in (10..70).step_by(10) {
            table.meet(rt, now)?;
        }
        Ok(table)
    }

    // What A has queued arrives at B, then what B has, with its answers, at A.
    pub(crate) fn meet(&mut self, rt: &impl Print, now: u32) -> io::Result<()> {
        self.b.receive(rt, &self.a, now)?;
        self.a.take_messages(rt)?;
        self.a.receive(rt, &self.b, now)?;
        self.b.take_messages(rt)
    }

    pub(crate) fn take_events(&mut self, rt: &impl Print) -> io::Result<()> {
        self.a.take_events(rt)?;
        self.b.take_events(rt)
    }
}
