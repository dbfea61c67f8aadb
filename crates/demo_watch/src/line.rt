// The two ends and what goes between them.
use crate::host::Host;
use crate::viewer::Viewer;
use std::io;

#[derive(Clone, Copy)]
pub(crate) struct Line {
    pub host: Host,
    pub viewer: Viewer,
}

impl Line {
    // Each end begins the handshake.
    pub(crate) fn begun(rt: &impl Print) -> io::Result<Line> {
        let mut host = Host::new(rt, 0)?;
        host.synchronize(rt, 0)?;
        let mut viewer = Viewer::new(rt, 0)?;
        viewer.synchronize(rt, 0)?;
        Ok(Line { host, viewer })
    }

    // In a meeting the host's request is answered at once, the box's in the next: after six both have their five replies.
    pub(crate) fn synchronize(&mut self, rt: &impl Print) -> io::Result<()> {
        for now in (10..70).step_by(10) {
            self.meet(rt, now)?;
        }
        Ok(())
    }

    pub(crate) fn meet(&mut self, rt: &impl Print, now: u32) -> io::Result<()> {
        self.host.act(rt, now)?;
        self.to_box(rt, now)?;
        self.to_host(rt, now)
    }

    // What the host has queued arrives at the box, which polls.
    fn to_box(&mut self, rt: &impl Print, now: u32) -> io::Result<()> {
        let queued = self.host.endpoint.messages(&self.host.queue);
        self.viewer.receive(rt, queued, now)?;
        self.viewer.poll(rt, now)?;
        self.host.take_messages(rt)
    }

    // What the poll handed back arrives at the host.
    fn to_host(&mut self, rt: &impl Print, now: u32) -> io::Result<()> {
        self.host.receive(rt, self.viewer.sent(), now)
    }

    pub(crate) fn show_events(&mut self, rt: &impl Print) -> io::Result<()> {
        self.host.show_events(rt)?;
        self.viewer.show_events(rt)
    }
}
