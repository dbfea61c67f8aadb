// What is written for one record: little-endian numbers, as they come, or their length and their sum.
use crate::crc::{NONE, sum_of, with_bytes};
use crate::stop::Stop;
use std::io::Stdout;

// How the answers are written.
#[derive(Clone, Copy, Debug)]
pub enum Mode {
    Whole,
    Digest,
}

#[derive(Clone, Copy)]
pub struct Out {
    to: Stdout,
    // Where digests are written, the one of what came so far.
    digest: Option<Digest>,
}

#[derive(Clone, Copy)]
struct Digest {
    length: u32,
    sum: u32,
}

impl Out {
    // The head is written as it is in both modes.
    pub(crate) fn begin(to: Stdout, mode: Mode, head: [u8; 4]) -> Result<Out, Stop> {
        let out = Out { to, digest: None }.bytes(&head)?;
        Ok(match mode {
            Mode::Whole => out,
            Mode::Digest => Out {
                digest: Some(Digest {
                    length: 0,
                    sum: NONE,
                }),
                ..out
            },
        })
    }

    pub(crate) fn end(self) -> Result<(), Stop> {
        let Some(digest) = self.digest else {
            return Ok(());
        };
        Out {
            digest: None,
            ..self
        }
        .u32(digest.length)?
        .u32(sum_of(digest.sum))?;
        Ok(())
    }

    pub(crate) fn bytes(self, bytes: &[u8]) -> Result<Out, Stop> {
        let Some(digest) = self.digest else {
            self.to.write_all(bytes).map_err(|_| Stop::Output)?;
            return Ok(self);
        };
        Ok(Out {
            digest: Some(Digest {
                length: digest.length.wrapping_add(low_bits(bytes.len())),
                sum: with_bytes(digest.sum, bytes),
            }),
            ..self
        })
    }

    // The bytes of a slice, their count before them.
    pub(crate) fn part(self, bytes: &[u8]) -> Result<Out, Stop> {
        self.count(bytes.len())?.bytes(bytes)
    }

    pub(crate) fn u8(self, n: u8) -> Result<Out, Stop> {
        self.bytes(&[n])
    }

    pub(crate) fn u16(self, n: u16) -> Result<Out, Stop> {
        self.bytes(&n.to_le_bytes())
    }

    pub(crate) fn u32(self, n: u32) -> Result<Out, Stop> {
        self.bytes(&n.to_le_bytes())
    }

    pub(crate) fn u64(self, n: u64) -> Result<Out, Stop> {
        self.bytes(&n.to_le_bytes())
    }

    // A count, as four bytes.
    pub(crate) fn count(self, n: usize) -> Result<Out, Stop> {
        self.u32(low_bits(n))
    }

    pub(crate) fn frame(self, frame: u32) -> Result<Out, Stop> {
        self.u32(frame::bits_of(frame))
    }

    pub(crate) fn flag(self, flag: bool) -> Result<Out, Stop> {
        self.u8(flag.into())
    }
}

fn low_bits(n: usize) -> u32 {
    (n & 0xFFFF_FFFF) as u32
}
