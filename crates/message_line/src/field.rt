// A field: its name, with the spaces around it, and its value in decimal.
ghost use Rattle.std.specs.Prelude.{◌++◌, ◌+◌, ◌≤◌, length};
ghost use Rattle.text.specs.Decimal.{decimal_of, signed_of};
ghost use Rattle.text.specs.Draft.{most_draft, Adds};
ghost use Rattle.message_line.specs.Line.{wide_text};

use crate::draft::put;
use codec::Wide;
use text::Draft;

pub(crate) fn number(draft: Draft, name: &[u8], n: u64) -> Draft
    requires { draft.text.count + (length name.now + 20) ≤ most_draft }
    ensures { Adds draft (name.now ++ decimal_of n) (length name.now + 20) result }
{
    put(draft, name).put_decimal(u128::from(n))
}

// A u128 is one number. Not generic with `number`: with room for 39 digits in every field the longest line has 307 bytes.
pub(crate) fn wide(draft: Draft, name: &[u8], n: Wide) -> Draft
    requires { draft.text.count + (length name.now + 39) ≤ most_draft }
    ensures { Adds draft (name.now ++ wide_text n) (length name.now + 39) result }
{
    put(draft, name).put_decimal(u128::from(n))
}

// What people read of a frame or an advantage is signed.
pub(crate) fn signed(draft: Draft, name: &[u8], n: u32, bias: u32) -> Draft
    requires { draft.text.count + (length name.now + 11) ≤ most_draft }
    ensures { Adds draft (name.now ++ signed_of bias n) (length name.now + 11) result }
{
    put(draft, name).put_signed(n, bias)
}
