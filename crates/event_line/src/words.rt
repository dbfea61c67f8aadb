// An event in words, behind what a draft has. The numbers in the contracts count bytes: a whole line has at most 79.
ghost use Rattle.std.specs.Prelude.{◌∷◌, ◌≤◌};
ghost use Rattle.text.specs.Ascii.{ascii};
ghost use Rattle.text.specs.Draft.{Holds, Adds};
ghost use Rattle.event_line.specs.Lines.{input_text, entry_line, under};

use ceilings::MOST_INPUT_SIZE;
use events::{Entry, Event};
use frame::BIAS32;
use text::{Draft, filled};

#[tactic(auto, using(crate::proofs::WordLaws::synchronizing_added, crate::proofs::WordLaws::word_added), unfolding(text::specs::Ascii::ascii, crate::specs::Lines::event_text))]
pub(crate) fn event(draft: Draft, entry: Entry, size: usize) -> Draft
    requires { draft.text.count ≤ 3 }
    ensures { Adds draft (entry_line size entry) 75 result }
{
    match entry.event {
        Event::Synchronizing { total, count } => {
            draft
                .put(b"Synchronizing ")
                .put_decimal(u128::from(count))
                .put(b" of ")
                .put_decimal(u128::from(total))
        }
        Event::Synchronized => draft.put(b"Synchronized"),
        Event::Input { frame, player } => moved(draft, frame, player, &entry.input, size),
        Event::Disconnected => draft.put(b"Disconnected"),
        Event::NetworkInterrupted { disconnect_timeout } => {
            draft
                .put(b"NetworkInterrupted ")
                .put_decimal(u128::from(disconnect_timeout))
        }
        Event::NetworkResumed => draft.put(b"NetworkResumed"),
    }
}

fn moved(draft: Draft, frame: u32, player: u32, input: &[u8; MOST_INPUT_SIZE], size: usize) -> Draft
    requires { draft.text.count ≤ 3 }
    ensures { Adds draft (input_text frame player size input.now) 75 result }
{
    draft
        .put(b"Input frame ")
        .put_signed(frame, BIAS32)
        .put(b" player ")
        .put_decimal(u128::from(player))
        .put(b": ")
        .put_hex(filled(input, size))
}

// A line begins with a letter, and ends with a newline.
fn begun(name: u8) -> Draft
    ensures { Holds (name ∷ ascii ": ") 3 result }
{
    Draft::new().put(&[name]).put(b": ")
}

pub(crate) fn named(name: u8, entry: Entry, size: usize) -> Draft
    ensures { Holds (under name (entry_line size entry)) 79 result }
{
    event(begun(name), entry, size).put(b"\n")
}

pub(crate) fn none(name: u8) -> Draft
    ensures { Holds (under name (ascii "no event")) 79 result }
{
    begun(name).put(b"no event\n")
}
