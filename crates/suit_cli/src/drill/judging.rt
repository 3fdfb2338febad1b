//! How a command of a round ended.

ghost use Rattle.std.specs.Prelude.{◌≡◌};
ghost use Rattle.suit_cli.specs.Coming.{ended_of, ended_status};
ghost use Rattle.suit_cli.specs.DrillRounds.{is_installed};

use crate::answer::Answer;
use crate::boot_lines::boot_status;
use crate::reply::Stop;
use crate::update_lines::update_status;
use update_proc::UpdateEnd;

/// The status of an answer.
pub(crate) fn answer_status(answer: &Answer) -> u8
    ensures { result ≡ ended_status (ended_of answer.now) }
{
    match answer {
        Answer::Said(Ok(reply)) | Answer::Said(Err(Stop::Declined(reply))) => {
            reply.outcome.status()
        }
        Answer::Said(Err(Stop::Fault(object))) => object.status(),
        Answer::Said(Err(Stop::NoMemory)) => 11,
        Answer::Booted(end, _) => boot_status(end),
        Answer::Updated(end, _) => update_status(end),
    }
}

/// Whether an envelope was installed.
pub(crate) fn is_installed(answer: &Answer) -> bool
    ensures { result ≡ is_installed (ended_of answer.now) }
{
    match answer {
        Answer::Updated(UpdateEnd::Installed(_), _) => true,
        Answer::Updated(_, _) | Answer::Booted(_, _) | Answer::Said(_) => false,
    }
}
