// Whether a message is ignored, by its sender and its magic alone, and what one that is not is refused for.
ghost use Rattle.std.specs.Prelude.{◌≡◌, Ok, Err};
ghost use Rattle.base.specs.Pick.{pick};
ghost use Rattle.answer.specs.declared.Refusal.TheVariants.{Full, Overflow};
ghost use Rattle.endpoint_rules.specs.Step.{ignored_by};
ghost use Rattle.endpoint.specs.Inside.Admission.{WeighedAs};

use answer::{Answer, Refusal};
use endpoint_rules::Phase;

// Whether a message is ignored (E-11).
pub(crate) fn is_ignored(phase: Phase, peer: u32, remote_magic: u16, from: u32, magic: u16) -> bool
    ensures { result ≡ ignored_by phase peer remote_magic from magic }
{
    matches!(phase, Phase::Shutdown) || from != peer || (remote_magic != 0 && magic != remote_magic)
}

// What is refused of a message that is let in, in the order of N-20.
pub(crate) fn weigh(too_long: bool, overflows: bool, full: bool) -> Answer
    ensures { WeighedAs too_long overflows full result }
{
    if too_long {
        return Err(Refusal::TooLong);
    }
    if overflows {
        return Err(Refusal::Overflow);
    }
    if full {
        return Err(Refusal::Full);
    }
    Ok(())
}

// The same of a checksum that its store was given: 6 is the store's, and 5 the store's or that of an event without room.
pub(crate) fn weigh_report(reported: Answer, full: bool) -> Answer
    ensures overflow { reported ≡ Err Overflow → result ≡ Err Overflow }
    ensures full { reported ≡ Err Full → result ≡ Err Full }
    ensures done { reported ≡ Ok tt → result ≡ pick full (Err Full) (Ok tt) }
{
    weigh(
        false,
        reported == Err(Refusal::Overflow),
        full || reported.is_err(),
    )
}
