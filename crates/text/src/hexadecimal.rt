// Bytes as hexadecimal text in a lent buffer.
// The buffer and the place in it are two parameters: the buffer is the caller's, and the clauses (`AppendedAs`) are over the whole buffer and the place.
ghost use Rattle.std.specs.Prelude.{◌≡◌, ◌<◌};
ghost use Rattle.text.specs.Append.{AppendedAs};
ghost use Rattle.text.specs.Hex.{hex_digit, hex_of};

// Lays the digits of all the bytes at the place, or leaves the buffer as it is where they do not fit.
#[tactic(auto, using(crate::proofs::HexLaws::hex_length, base::proofs::Lay::laid_none, crate::proofs::AppendLaws::refused), unfolding(crate::specs::Hex::hex_of))]
pub fn hex(out: &mut [u8], at: usize, bytes: &[u8]) -> bool
    ensures { AppendedAs out.old at (hex_of bytes.now) result out.new }
{
    // Half the room against the bytes, since twice a length can wrap.
    if out.len() < at || (out.len() - at) / 2 < bytes.len() {
        return false;
    }
    // By hand: crate `hex`'s `encode_to_slice` takes three times as long.
    let mut place = at;
    for b in bytes {
        out[place] = digit(b / 16);
        out[place + 1] = digit(b % 16);
        place += 2;
    }
    true
}

// A digit of `hex`, by hand as it is.
#[tactic(auto, using(crate::proofs::HexLaws::hex_digit_high, crate::proofs::HexLaws::hex_digit_low))]
fn digit(half: u8) -> u8
    requires { half < 16 }
    ensures { result ≡ hex_digit half }
{
    if half < 10 {
        b'0' + half
    } else {
        b'a' - 10 + half
    }
}
