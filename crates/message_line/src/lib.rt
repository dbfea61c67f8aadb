// The printed line of a datagram: the kind, the magic and each field's name and value, or the word
// refused and the number. It has no newline at its end.
// The buffer and the place in it are two parameters: the buffer is the caller's, and the clauses (`page`) are over the whole buffer and the place.
#![tactic(auto)]

mod body;
mod draft;
mod field;
mod head;
mod input;

ghost use Rattle.std.specs.Prelude.{◌≡◌, [], ◌∷◌, ◌++◌};
ghost use Rattle.text.specs.Ascii.{ascii};
ghost use Rattle.text.specs.Hex.{hex_of};
ghost use Rattle.text.specs.Page.{page, written_all};
ghost use Rattle.message_line.specs.Calls.{LineAs};
ghost use Rattle.message_line.specs.Line.{line_of};

use answer::Refusal;

// The place after the line; Full where it does not fit, and then nothing is written.
#[tactic(auto, using(crate::proofs::HeadLaws::line_parts, crate::proofs::LayLaws::same_line))]
pub fn line(out: &mut [u8], at: usize, datagram: &[u8]) -> Result<usize, Refusal>
    ensures { LineAs out.old at (line_of datagram.now) result out.new }
{
    let payload = codec::payload_of(datagram);
    let head = head::head_of(datagram, payload.len());
    lay(out, at, head.as_slice(), payload)
}

// The line after some words, with a newline at its end: each of the three where it fits. Gives the place after them.
#[tactic(auto, using(crate::proofs::LayLaws::line_page, crate::proofs::LayLaws::three_pieces), unfolding(text::specs::Ascii::ascii))]
pub fn line_after(out: &mut [u8], at: usize, words: &[u8], datagram: &[u8]) -> usize
    ensures { page out.new result
        ≡ written_all (words.now ∷ line_of datagram.now ∷ ascii "\n" ∷ []) (page out.old at) }
{
    let start = text::lay(out, at, words);
    let end = line(out, start, datagram).unwrap_or(start);
    text::lay(out, end, b"\n")
}

// The whole line is known to fit before the first byte is written. The room is a difference, since
// sums of lengths can wrap.
#[tactic(auto, using(crate::proofs::LayLaws::both_laid, crate::proofs::LayLaws::no_room_lem))]
fn lay(out: &mut [u8], at: usize, head: &[u8], payload: &[u8]) -> Result<usize, Refusal>
    ensures { LineAs out.old at (head.now ++ hex_of payload.now) result out.new }
{
    if out.len() < at
        || out.len() - at < head.len()
        || (out.len() - at - head.len()) / 2 < payload.len()
    {
        return Err(Refusal::Full);
    }
    text::append(out, at, head);
    text::hex(out, at + head.len(), payload);
    Ok(at + head.len() + 2 * payload.len())
}
