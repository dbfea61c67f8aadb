// Payloads of inputs: frames one behind the other, each XOR one reference (P-1). Here is one frame, into a lent buffer and out of a lent payload, so that
// neither end copies a payload; the payload as a whole is a definition of specs/.
// The buffer and the place in it are two parameters: the buffer is the caller's, and the clauses (`PlacedAs`) are over the whole buffer and the place.
#![tactic(auto)]

ghost use Rattle.std.specs.Prelude.{◌≡◌, min, take, drop};
ghost use Rattle.ceilings.specs.Ceilings.{most_width};
ghost use Rattle.packing.specs.Packing.{xors, decodable_length, frame_count, PlacedAs};
ghost use Rattle.packing.specs.Pad.{padded};

pub mod input_bytes;

use ceilings::MOST_WIDTH;
pub use input_bytes::InputBytes;

// The bytes of a frame that count, of the width given.
pub fn frame_width(width: usize) -> usize
    ensures { result ≡ min width most_width }
{
    width.min(MOST_WIDTH)
}

// Lays one frame, XOR the reference, at a place of a lent buffer; where it does not fit, nothing is written.
pub fn pack_frame(
    out: &mut [u8],
    at: usize,
    frame: &[u8; MOST_WIDTH],
    width: usize,
    reference: &[u8; MOST_WIDTH],
) -> bool
    ensures { PlacedAs out.old at (xors (take width frame.now) reference.now) result out.new }
{
    let w = frame_width(width);
    if out.len() < at || out.len() - at < w {
        return false;
    }
    for (i, x) in frame[..w].iter().enumerate() {
        out[at + i] = *x ^ reference[i];
    }
    true
}

// A part of a payload XOR the reference, with zeros after it.
fn undo(part: &[u8], reference: &[u8; MOST_WIDTH]) -> [u8; MOST_WIDTH]
    ensures { result ≡ padded (xors part.now reference.now) }
{
    let mut out = [0; MOST_WIDTH];
    let n = part.len().min(MOST_WIDTH);
    for (i, x) in part[..n].iter().enumerate() {
        out[i] = *x ^ reference[i];
    }
    out
}

// The frame that starts at a place of a payload, with zeros after it; what lies past the payload's end is not there.
pub fn frame_at(
    payload: &[u8],
    at: usize,
    width: usize,
    reference: &[u8; MOST_WIDTH],
) -> [u8; MOST_WIDTH]
    ensures { result ≡ padded (xors (take width (drop at payload.now)) reference.now) }
{
    let rest = &payload[at.min(payload.len())..];
    undo(&rest[..width.min(rest.len())], reference)
}

// Whether a payload of this length is whole frames.
#[tactic(auto, unfolding(crate::specs::Packing::decodable_length))]
pub fn decodable(length: usize, width: usize) -> bool
    ensures { result ≡ decodable_length width length }
{
    width != 0 && length.is_multiple_of(width)
}

// How many whole frames a payload of this length has.
pub fn frame_count(length: usize, width: usize) -> usize
    ensures { result ≡ frame_count width length }
{
    length.checked_div(width).unwrap_or(0)
}
