// Messages that are answered at once or only noted: a request for a reply, both quality reports, and one that just keeps the connection alive.
// The plain parts, and the buffer and its place, are parameters each, as `ReactedAs` has them.
ghost use Rattle.endpoint.specs.Inside.Reaction.{ReactedAs};

use answer::Refusal;
use codec::MessageBody;
use quality::Quality;
use timers::Clocks;

// The plain parts of an endpoint that such a message may change.
#[derive(Clone, Copy)]
pub struct Reacted {
    pub quality: Quality,
    pub clocks: Clocks,
    pub end: usize,
}

// By the number of its kind, which is one of these four (F-6); refused where what it brings has no room. `full`: what it announces has none.
#[tactic(auto, using(crate::proofs::Laws::Handshake::false_true, codec::proofs::KindNumbers::kind_other, codec::proofs::KindNumbers::kind_quality_reply, codec::proofs::KindNumbers::kind_quality_report, codec::proofs::KindNumbers::kind_sync_request))]
pub(crate) fn react(
    body: MessageBody,
    full: bool,
    quality: Quality,
    clocks: Clocks,
    now: u64,
    epoch: u64,
    magic: u16,
    out: &mut [u8],
    queued: usize,
) -> Result<Reacted, Refusal>
    ensures { ReactedAs body full quality clocks now epoch magic out.old queued result out.new }
{
    if full {
        return Err(Refusal::Full);
    }
    let noted = Reacted {
        quality,
        clocks,
        end: queued,
    };
    match codec::kind_of(body) {
        0 => {
            let MessageBody::SyncRequest { random_request } = body else {
                return Ok(noted);
            };
            let reply = MessageBody::SyncReply {
                random_reply: random_request,
            };
            Ok(Reacted {
                quality,
                clocks: clocks.sent(now),
                end: outbox::body_only(out, queued, magic, reply)?,
            })
        }
        4 => {
            let MessageBody::QualityReport {
                frame_advantage,
                ping,
            } = body
            else {
                return Ok(noted);
            };
            let reply = MessageBody::QualityReply { pong: ping };
            Ok(Reacted {
                quality: quality.remote(frame_advantage),
                clocks: clocks.sent(now),
                end: outbox::body_only(out, queued, magic, reply)?,
            })
        }
        5 => {
            let MessageBody::QualityReply { pong } = body else {
                return Ok(noted);
            };
            let time = quality::round_trip(epoch, pong.low, pong.high);
            Ok(Reacted {
                quality: quality.tripped(time),
                ..noted
            })
        }
        // KeepAlive.
        _ => Ok(noted),
    }
}
