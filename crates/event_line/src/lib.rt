// The printed lines of events: the words of one event, and the lines of all events under an end's letter.
// The buffer and the place in it are two parameters: the buffer is the caller's, and the clauses (`page`) are over the whole buffer and the place.
#![tactic(auto)]

mod words;

ghost use Rattle.std.specs.Prelude.{◌≡◌};
ghost use Rattle.text.specs.Page.{page, written, written_all};
ghost use Rattle.events.specs.Events.{held_events};
ghost use Rattle.event_line.specs.Lines.{entry_line, lines_of};

use events::{Entry, Events};
use text::Draft;

// One event, with no newline: of an Input the first `size` bytes. Gives the place after the line, or the place as it was where it does not fit.
pub fn line(out: &mut [u8], at: usize, entry: Entry, size: usize) -> usize
    ensures { page out.new result ≡ written (entry_line size entry) (page out.old at) }
{
    words::event(Draft::new(), entry, size).lay_into(out, at)
}

// Every event on a line of its own, each where it fits; one line that says so where there is none.
#[tactic(auto, using(crate::proofs::EachLaws::none_lines, crate::proofs::EachLaws::some_lines, crate::proofs::EachLaws::all_laid, crate::proofs::EachLaws::turn), unfolding(events::specs::Events::held_events))]
pub fn lines(out: &mut [u8], at: usize, name: u8, events: Events, size: usize) -> usize
    ensures { page out.new result ≡ written_all (lines_of name size (held_events events)) (page out.old at) }
{
    let entries = events.entries.as_slice();
    if entries.is_empty() {
        return words::none(name).lay_into(out, at);
    }
    let mut end = at;
    for entry in entries {
        end = words::named(name, *entry, size).lay_into(out, end);
    }
    end
}
