// An Input's fields, up to its payload.
ghost use Rattle.std.specs.Prelude.{◌≤◌, length};
ghost use Rattle.base.specs.Pick.{pick};
ghost use Rattle.ceilings.specs.Ceilings.{most_players};
ghost use Rattle.codec.specs.declared.MessageBody.TheVariants.{Input};
ghost use Rattle.text.specs.Ascii.{ascii};
ghost use Rattle.text.specs.Draft.{Adds};
ghost use Rattle.message_line.specs.Line.{field, report_text, reports_text, bytes_text, fields_text};

use crate::draft::put;
use crate::field::{number, signed};
use codec::StatusReport;
use frame::BIAS32;
use text::Draft;

// The payload has `bytes` bytes.
pub(crate) fn input(
    draft: Draft,
    reports: &[StatusReport],
    disconnect_requested: bool,
    start_frame: u32,
    ack_frame: u32,
    bytes: usize,
) -> Draft
    requires { (draft.text.count ≤ 41) × (length reports.now ≤ most_players) }
    ensures { Adds draft (fields_text (Input disconnect_requested start_frame ack_frame) reports.now bytes) 209 result }
{
    let next = number(draft, b" statuses ", reports.len() as u64);
    let next = statuses(next, reports);
    let next = disconnect(next, disconnect_requested);
    let next = signed(next, b" start ", start_frame, BIAS32);
    let next = signed(next, b" ack ", ack_frame, BIAS32);
    payload_length(next, bytes)
}

#[tactic(auto, using(crate::proofs::StatusLaws::statuses_turn, text::proofs::PieceLaws::wider), unfolding(crate::specs::Line::reports_text))]
fn statuses(draft: Draft, reports: &[StatusReport]) -> Draft
    requires { (draft.text.count ≤ 156) × (length reports.now ≤ most_players) }
    ensures { Adds draft (reports_text reports.now) 100 result }
{
    let mut next = draft;
    for report in reports {
        next = status(next, *report);
    }
    next
}

fn status(draft: Draft, report: StatusReport) -> Draft
    requires { draft.text.count ≤ 231 }
    ensures { Adds draft (report_text report) 25 result }
{
    if report.disconnected {
        signed(draft, b" disconnected ", report.last_frame, BIAS32)
    } else {
        signed(draft, b" connected ", report.last_frame, BIAS32)
    }
}

fn disconnect(draft: Draft, requested: bool) -> Draft
    requires { draft.text.count ≤ 239 }
    ensures { Adds draft (field "disconnect" (ascii (pick requested "true" "false"))) 17 result }
{
    if requested {
        put(draft, b" disconnect true")
    } else {
        put(draft, b" disconnect false")
    }
}

// The space before the payload belongs to a payload that has bytes.
#[tactic(auto, using(text::proofs::PieceLaws::both_adds, crate::proofs::TextLaws::no_bytes, text::proofs::PieceLaws::same_piece, crate::proofs::TextLaws::some_bytes, text::proofs::PieceLaws::wider), unfolding(text::specs::Ascii::ascii, crate::specs::Line::field))]
fn payload_length(draft: Draft, length: usize) -> Draft
    requires { draft.text.count ≤ 228 }
    ensures { Adds draft (bytes_text length) 28 result }
{
    let next = number(draft, b" bytes ", length as u64);
    if length == 0 {
        return next;
    }
    put(next, b" ")
}
