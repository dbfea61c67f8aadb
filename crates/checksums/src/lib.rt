// The checksums that the other end reported, one for each frame: the crate's `pending_checksums`, with its clean-up, or in firm mode the 32 largest
// frames. A checksum's 128 bits are two halves.
#![tactic(auto)]

ghost use Rattle.std.specs.Prelude.{◌≡◌, [], ◌≤◌, ◌==◌, false, leb, length, find, position, get_or};
ghost use Rattle.ceilings.specs.Ceilings.{most_checksums};
ghost use Rattle.base.specs.Keyed.{put};
ghost use Rattle.checksums.specs.Checksums.{stored, checksum_frame, kept_from, keep_line, too_early, others_full, blank_checksum, FoundAs};
ghost use Rattle.checksums.specs.Firm.{smallest, firm_line};
ghost use Rattle.checksums.specs.Report.{line_by, ReportedAs};

use answer::{Answer, Refusal};
use ceilings::{CLEAN_CHECKSUMS, MOST_CHECKSUMS, MOST_FIRM_CHECKSUMS};
use fixed_vec::{FixedVec, Test};

#[derive(Clone, Copy, Debug, PartialEq, Eq)]
pub struct Checksum {
    pub frame: u32,
    pub low: u64,
    pub high: u64,
}

// What stands for no checksum.
const BLANK: Checksum = Checksum {
    frame: 0,
    low: 0,
    high: 0,
};

#[derive(Clone, Copy)]
pub struct Checksums {
    pub entries: FixedVec<Checksum, MOST_CHECKSUMS>,
}

// The test of a line: a checksum of its frame or a later one passes.
#[derive(Clone, Copy)]
struct FromLine {
    line: u64,
}

impl Test<Checksum> for FromLine {
    ghost passes = { λ t x. leb t.line x.frame };

    fn passes(&self, x: &Checksum) -> bool {
        self.line <= u64::from(x.frame)
    }
}

// The oldest frame to keep, 31 intervals before the arriving one, would lie below all frames: tested only where the clean-up needs it. In u64 no interval
// overflows.
#[tactic(auto, unfolding(crate::specs::Checksums::too_early))]
fn too_early(count: usize, frame: u32, interval: u32) -> bool
    ensures { result ≡ too_early count frame interval }
{
    CLEAN_CHECKSUMS <= count && u64::from(frame) < 31 * u64::from(interval)
}

// The clean-up keeps from this frame on: with fewer than 32 stored, from the least, so all.
#[tactic(auto, unfolding(crate::specs::Checksums::keep_line))]
fn keep_line(count: usize, frame: u32, interval: u32) -> u64
    ensures { result ≡ keep_line count frame interval }
{
    if CLEAN_CHECKSUMS <= count {
        u64::from(frame).saturating_sub(31 * u64::from(interval))
    } else {
        0
    }
}

// In firm mode, where 32 or more are stored and the frame is none of them, the smallest is dropped: those above it are kept. Else all are. In u64 the
// greatest frame has a successor too.
#[tactic(auto, unfolding(crate::specs::Firm::firm_line))]
fn firm_line(count: usize, held: bool, smallest: u32) -> u64
    ensures { result ≡ firm_line count held smallest }
{
    if held | (count < MOST_FIRM_CHECKSUMS) {
        return 0;
    }
    u64::from(smallest) + 1
}

// The first of a frame. A function of its own, as is the next: a chain is proved over a slice that is an argument.
fn first(stored: &[Checksum], frame: u32) -> Option<Checksum>
    ensures { result ≡ find (λ c. frame == c.frame) stored.now }
{
    stored.iter().copied().find(|x| frame == x.frame)
}

// The first place of a frame.
fn first_place(stored: &[Checksum], frame: u32) -> Option<usize>
    ensures { result ≡ position (λ c. frame == c.frame) stored.now }
{
    stored.iter().position(|x| frame == x.frame)
}

impl Checksums {
    // The list is written out: to take it from `FixedVec::new` is to copy it.
    #[tactic(auto, unfolding(crate::specs::Checksums::stored, fixed_vec::specs::FixedVec::held))]
    pub fn new() -> Checksums
        ensures { stored result ≡ [] }
    {
        Checksums {
            entries: FixedVec {
                list: [BLANK; MOST_CHECKSUMS],
                count: 0,
            },
        }
    }

    #[tactic(auto, unfolding(crate::specs::Checksums::stored))]
    pub fn count(&self) -> usize
        ensures value { result ≡ length (stored self.now) }
        ensures fits { result ≤ most_checksums }
    {
        self.entries.len()
    }

    // The i-th, or zeros.
    pub fn entry(&self, i: usize) -> Checksum
        ensures { result ≡ get_or (stored self.now) i blank_checksum }
    {
        self.entries.get(i).unwrap_or(BLANK)
    }

    // The checksum of a frame.
    #[tactic(auto, using(crate::proofs::Chains::find_is), unfolding(crate::specs::Checksums::stored))]
    pub fn find(&self, frame: u32) -> Option<Checksum>
        ensures { FoundAs self.now frame result }
    {
        first(self.entries.as_slice(), frame)
    }

    // The smallest frame stored; of none 0.
    fn smallest(&self) -> u32
        ensures { result ≡ smallest (stored self.now) }
    {
        self.entries
            .as_slice()
            .iter()
            .map(|x| x.frame)
            .min()
            .unwrap_or(0)
    }

    // The line of a report: those stored stay from this frame on, and the report's is not stored below it.
    fn line(&self, frame: u32, interval: u32, firm: bool) -> u64
        ensures { result ≡ line_by firm frame interval (stored self.now) }
    {
        if firm {
            firm_line(self.count(), self.find(frame).is_some(), self.smallest())
        } else {
            keep_line(self.count(), frame, interval)
        }
    }

    // How many are from a line on.
    fn count_from(&self, line: u64) -> usize
        ensures { result ≡ length (kept_from line (stored self.now)) }
    {
        self.entries
            .as_slice()
            .iter()
            .filter(|x| line <= u64::from(x.frame))
            .count()
    }

    // Whether 64 others stay, of a line that is not above the frame.
    #[tactic(auto, using(crate::proofs::Chains::full_is))]
    fn is_full(&self, frame: u32, line: u64) -> bool
        requires { line ≤ frame }
        ensures { result ≡ others_full frame (kept_from line (stored self.now)) }
    {
        // With fewer there is nothing to look for.
        if self.count() < MOST_CHECKSUMS {
            return false;
        }
        MOST_CHECKSUMS <= self.count_from(line) && self.find(frame).is_none()
    }

    // Those from a line on stay, in their order.
    #[tactic(auto, unfolding(crate::specs::Checksums::stored))]
    fn keep_from(&mut self, line: u64)
        ensures { stored self.new ≡ kept_from line (stored self.old) }
    {
        self.entries.retain(&FromLine { line })
    }

    // A checksum at its frame's place, or at the end, where there is room.
    fn put(&mut self, checksum: Checksum)
        requires { others_full checksum.frame (stored self.old) ≡ false }
        ensures { stored self.new ≡ put checksum_frame checksum (stored self.old) }
    {
        match first_place(self.entries.as_slice(), checksum.frame) {
            Some(at) => self.entries.set(at, checksum),
            None => self.entries.push(checksum).unwrap(),
        }
    }

    // A report, as the crate takes it: the clean-up where 32 or more are stored, then the checksum put at its frame's place or at the end. In firm mode the
    // smallest of 32 or more is dropped for a larger frame that is not stored yet, and a frame smaller than all of them is not stored. Refused, it leaves
    // the store as it was.
    pub fn report(&mut self, checksum: Checksum, interval: u32, firm: bool) -> Answer
        ensures { ReportedAs self.old checksum interval firm result self.new }
    {
        let frame = checksum.frame;
        if !firm & too_early(self.count(), frame, interval) {
            return Err(Refusal::Overflow);
        }
        // The line is above the frame in firm mode alone: where the frame is not stored, and is smaller than all that are. Then nothing changes.
        let line = self.line(frame, interval, firm);
        if u64::from(frame) < line {
            return Ok(());
        }
        if self.is_full(frame, line) {
            return Err(Refusal::Full);
        }
        self.keep_from(line);
        self.put(checksum);
        Ok(())
    }
}
