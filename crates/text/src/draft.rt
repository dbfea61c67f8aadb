// A text while it is composed, by value: pieces one after another, each whole or not at all.
// The buffer and the place in it are two parameters: the buffer is the caller's, and the clauses (`page`) are over the whole buffer and the place.
ghost use Rattle.std.specs.Prelude.{[], ◌≡◌};
ghost use Rattle.text.specs.Decimal.{decimal_of, signed_of};
ghost use Rattle.text.specs.Hex.{hex_of};
ghost use Rattle.text.specs.Page.{page, written};
ghost use Rattle.text.specs.Draft.{drafted, added, DraftedAs};

use crate::hexadecimal::hex;
use crate::number::{decimal, signed};
use crate::pieces::lay;
use fixed_vec::FixedVec;

// Bytes of a text.
pub const MOST_DRAFT: usize = 256;

#[derive(Clone, Copy)]
pub struct Draft {
    pub text: FixedVec<u8, MOST_DRAFT>,
}

impl Draft {
    #[tactic(auto, using(crate::proofs::DraftLaws::nothing))]
    pub fn new() -> Draft
        ensures { DraftedAs [] result }
    {
        Draft {
            text: FixedVec::new(0),
        }
    }

    #[tactic(auto, unfolding(crate::specs::Draft::drafted))]
    pub fn as_slice(&self) -> &[u8]
        ensures { result.now ≡ drafted self.now }
    {
        self.text.as_slice()
    }

    #[tactic(auto, unfolding(crate::specs::Draft::drafted, crate::specs::Draft::added))]
    pub fn put(mut self, piece: &[u8]) -> Draft
        ensures { DraftedAs (added (drafted self) piece.now) result }
    {
        self.text.extend_from_slice(piece);
        self
    }

    // Two lower-case digits a byte.
    #[tactic(auto, using(crate::proofs::HexLaws::hex_length, crate::proofs::DraftLaws::put_fits, crate::proofs::DraftLaws::put_done, crate::proofs::DraftLaws::put_none))]
    pub fn put_hex(mut self, piece: &[u8]) -> Draft
        ensures { DraftedAs (added (drafted self) (hex_of piece.now)) result }
    {
        let n = self.text.len();
        self.text.count = n;
        if hex(&mut self.text.list, n, piece) {
            self.text.count = n + 2 * piece.len();
        }
        self
    }

    pub fn put_decimal(self, n: u128) -> Draft
        ensures { DraftedAs (added (drafted self) (decimal_of n)) result }
    {
        self.put(decimal(n).as_slice())
    }

    // The number n - bias.
    pub fn put_signed(self, n: u32, bias: u32) -> Draft
        ensures { DraftedAs (added (drafted self) (signed_of bias n)) result }
    {
        self.put(signed(n, bias).as_slice())
    }

    // All of it at a place of a lent buffer, where it fits; the place after it, or the place as it was.
    pub fn lay_into(&self, out: &mut [u8], at: usize) -> usize
        ensures { page out.new result ≡ written (drafted self.now) (page out.old at) }
    {
        lay(out, at, self.as_slice())
    }
}
