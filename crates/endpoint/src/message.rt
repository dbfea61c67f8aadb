// What arrives: a message as a value, or as the bytes of a datagram.
// What each call is given, a message, clocks, a nonce, a buffer, are its parameters (F-11), which docs/API.md names.
mod admission;
mod body;
mod hearing;
mod informing;
mod packet;
mod reaction;

ghost use Rattle.std.specs.Prelude.{◌≡◌, length};
ghost use Rattle.ceilings.specs.Ceilings.{most_events};
ghost use Rattle.codec.specs.Message.{meant};
ghost use Rattle.endpoint_rules.specs.Call.{Call};
ghost use Rattle.endpoint_rules.specs.Step.{step};
ghost use Rattle.endpoint.specs.Endpoint.{seen, DidAs};

use crate::{Ended, Endpoint, Sync, handshake, room};
use answer::{Answer, Refusal};
use codec::{Message, MessageBody};
use endpoint_rules::Phase;
use events::{Frames, NETWORK_RESUMED, Notices};
use history::{BLANK, Packet};

impl Endpoint {
    // A message goes by the number of its kind, and one above 7, which no body has, is refused. What is decided stands in functions over the plain parts,
    // and what changes a store is that store's. A refusal comes before the first change. By the kind's number: F-6. The array's length is
    // required since it is known of a value and not behind `&mut`.
    #[tactic(auto, using(crate::proofs::Laws::Message::Bodies::message_late))]
    fn handle_message(
        &mut self,
        from: u32,
        message: Message,
        payload: &[u8],
        now: u64,
        epoch: u64,
        nonce: u32,
        out: &mut [u8],
    ) -> Answer
        requires { length self.old.events.entries.list ≡ most_events }
        ensures { DidAs self.old (step (Call.message from message.reports.count (meant message payload.now) now epoch nonce (length out.old)) (seen self.old)) out.old (record { endpoint = self.new; answer = result }) out.new }
    {
        if timers::is_bad(now) || timers::is_bad(epoch) {
            return Err(Refusal::BadClock);
        }
        let phase = self.sync.phase;
        if admission::is_ignored(
            phase,
            self.setup.peer_addr,
            self.sync.remote_magic,
            from,
            message.magic,
        ) {
            return Ok(());
        }
        let resumes = hearing::is_resuming(phase, self.flags);
        let full = room::events_full(resumes, self.events.count());
        let body = message.body;
        match codec::kind_of(body) {
            // SyncReply: one that counts is announced, and another request goes out or the handshake is over; any other is only heard.
            1 => {
                let reply = body::reply_of(body);
                if let Phase::Synchronizing = phase {
                    let remaining = self.sync.remaining.saturating_sub(1);
                    // Copies, since the request may be refused yet.
                    let mut nonces = self.nonces;
                    if nonces.spend(reply, 0 < remaining, nonce) {
                        let mut events = self.events;
                        events.push(handshake::progress(remaining))?;
                        if 0 < remaining {
                            self.request(now, nonce, out)?;
                            self.sync.remaining = remaining;
                        } else {
                            // The last reply's magic is what the filter asks for from then on.
                            self.sync = Sync {
                                phase: Phase::Running,
                                remaining,
                                remote_magic: message.magic,
                            };
                        }
                        self.nonces = nonces;
                        self.events = events;
                        self.clocks = self.clocks.heard(now);
                        return Ok(());
                    }
                }
                if full {
                    return Err(Refusal::Full);
                }
            }
            // Input: one that is discarded is only heard. Of another the frames above the newest are announced, what it acknowledges is dropped, and inputs that
            // can be read are kept and acknowledged.
            2 => {
                let head = body::input_of(body);
                let opened = packet::open(
                    &self.history,
                    self.setup,
                    head,
                    message.reports.count,
                    payload.len(),
                );
                if !opened.discarded {
                    let informed = informing::inform(
                        phase,
                        self.clocks,
                        self.flags,
                        self.statuses,
                        head.disconnect_requested,
                        message.reports,
                        now,
                    );
                    packet::admit(opened, out.len(), self.queued)?;
                    let width = self.setup.receiving_width();
                    let news = packet::news_of(
                        opened.readable,
                        opened.newest,
                        head.start_frame,
                        payload.len(),
                        width,
                    );
                    // Where none is held, no frame is read against it.
                    let reference = opened.reference.unwrap_or(BLANK);
                    let notices = Notices {
                        resumed: informed.resumes,
                        disconnected: informed.disconnects,
                    };
                    let frames = Frames {
                        first: news.first,
                        count: news.count,
                        width,
                    };
                    packet::announce(
                        &mut self.events,
                        notices,
                        frames,
                        &payload[news.at..],
                        &reference.bytes,
                        self.setup.handles.as_slice(),
                        self.setup.input_size as usize,
                    )?;
                    self.acked = packet::acknowledge(&mut self.pending, head.ack_frame, self.acked);
                    self.clocks = packet::noted(
                        informed.clocks,
                        opened.reference.is_some(),
                        opened.readable,
                        now,
                    );
                    self.flags = informed.flags;
                    self.statuses = informed.statuses;
                    if opened.readable {
                        let packet = Packet {
                            start: head.start_frame,
                            width,
                            reference,
                        };
                        self.history
                            .take_in(payload, &packet, opened.newest, self.setup.max_prediction);
                        self.queued = outbox::body_only(
                            out,
                            self.queued,
                            self.setup.magic,
                            MessageBody::InputAck {
                                ack_frame: self.history.newest(),
                            },
                        )
                        .unwrap_or(self.queued);
                    }
                    return Ok(());
                }
                if full {
                    return Err(Refusal::Full);
                }
            }
            // InputAck.
            3 => {
                let ack_frame = body::ack_of(body);
                if full {
                    return Err(Refusal::Full);
                }
                self.acked = self.pending.drop_to(ack_frame, self.acked);
            }
            // ChecksumReport.
            6 => {
                // A copy, since an overflow is refused before an event that has no room (N-20).
                let mut checksums = self.checksums;
                let reported = checksums.report(
                    body::checksum_of(body),
                    self.setup.interval(),
                    self.setup.choices.firm_checksums,
                );
                admission::weigh_report(reported, full)?;
                self.checksums = checksums;
            }
            // SyncRequest, QualityReport, QualityReply, KeepAlive.
            0 | 4 | 5 | 7 => {
                let reacted = reaction::react(
                    body,
                    full,
                    self.quality,
                    self.clocks,
                    now,
                    epoch,
                    self.setup.magic,
                    out,
                    self.queued,
                )?;
                self.quality = reacted.quality;
                self.clocks = reacted.clocks;
                self.queued = reacted.end;
            }
            _ => return Err(Refusal::BadKind),
        }
        // What is left of every other message is that it was heard. The event has room, or the message was refused above.
        if resumes {
            let _ = self.events.push(NETWORK_RESUMED);
            self.flags.disconnect_notify_sent = false;
        }
        self.clocks = self.clocks.heard(now);
        Ok(())
    }

    pub fn message(
        mut self,
        from: u32,
        message: Message,
        payload: &[u8],
        now: u64,
        epoch: u64,
        nonce: u32,
        out: &mut [u8],
    ) -> Ended
        ensures { DidAs self (step (Call.message from message.reports.count (meant message payload.now) now epoch nonce (length out.old)) (seen self)) out.old result out.new }
    {
        let answer = self.handle_message(from, message, payload, now, epoch, nonce, out);
        Ended {
            endpoint: self,
            answer,
        }
    }

    // What arrives is read first, and a reader's refusal is the call's.
    pub fn datagram(
        mut self,
        from: u32,
        datagram: &[u8],
        now: u64,
        epoch: u64,
        nonce: u32,
        out: &mut [u8],
    ) -> Ended
        ensures { DidAs self (step (Call.datagram from datagram.now now epoch nonce (length out.old)) (seen self)) out.old result out.new }
    {
        let answer = match codec::read(datagram) {
            Ok(message) => {
                let payload = codec::payload_of(datagram);
                self.handle_message(from, message, payload, now, epoch, nonce, out)
            }
            Err(refusal) => Err(refusal),
        };
        Ended {
            endpoint: self,
            answer,
        }
    }
}
