// A line while it is composed, up to an Input's payload. The numbers in the contracts over drafts
// count bytes: with the longest value of every field, 250 of the 256 are used. Each function asks for
// the room of its own pieces and of what follows, so no one invariant of a draft says it for all.
ghost use Rattle.std.specs.Prelude.{◌+◌, ◌≤◌, length};
ghost use Rattle.text.specs.Draft.{most_draft, Adds};

use text::Draft;

pub(crate) fn put(draft: Draft, piece: &[u8]) -> Draft
    requires { draft.text.count + length piece.now ≤ most_draft }
    ensures { Adds draft piece.now (length piece.now) result }
{
    draft.put(piece)
}
