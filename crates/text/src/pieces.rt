// A piece of text laid into a lent buffer at a place.
// The buffer and the place in it are two parameters: the buffer is the caller's, and the clauses (`AppendedAs`) are over the whole buffer and the place.
ghost use Rattle.std.specs.Prelude.{◌≡◌, take};
ghost use Rattle.text.specs.Append.{AppendedAs};
ghost use Rattle.text.specs.Page.{page, written};

// Lays the piece at the place, or leaves the buffer as it is where the piece does not fit.
#[tactic(auto, using(crate::proofs::AppendLaws::copied, crate::proofs::AppendLaws::refused))]
pub fn append(out: &mut [u8], at: usize, piece: &[u8]) -> bool
    ensures { AppendedAs out.old at piece.now result out.new }
{
    // The room is a difference, since the sum of a place and a length can wrap.
    if out.len() < at || out.len() - at < piece.len() {
        return false;
    }
    out[at..at + piece.len()].copy_from_slice(piece);
    true
}

// The same, for text that goes on behind it: the place after the piece, or the place as it was.
#[tactic(auto, using(crate::proofs::PageLaws::fits, crate::proofs::PageLaws::laid_page, crate::proofs::PageLaws::same_page))]
pub fn lay(out: &mut [u8], at: usize, piece: &[u8]) -> usize
    ensures { page out.new result ≡ written piece.now (page out.old at) }
{
    if append(out, at, piece) {
        return at + piece.len();
    }
    at
}

// The part of a buffer up to a place; all of it where the place lies beyond its end.
pub fn filled(out: &[u8], end: usize) -> &[u8]
    ensures { result.now ≡ take end out.now }
{
    &out[..end.min(out.len())]
}
