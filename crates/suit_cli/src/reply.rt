//! Replies to the words, and their statuses.

ghost use Rattle.std.specs.Prelude.{◌≡◌, ◌++◌, codes, string_bytes};
ghost use Rattle.suit_cli.specs.declared.reply.Outcome.TheVariants as outcomes;
ghost use Rattle.suit_cli.specs.declared.reply.Stop.TheVariants as stops;
ghost use Rattle.suit_cli.specs.Replies.{Makes, refused_by, stop_of};
ghost use Rattle.suit_cli.specs.Statuses.{status_of, fault_status, fault_line};
ghost use Rattle.suit_cli.specs.Lines.{path_lines};
ghost use Rattle.suit_cli.specs.Texts.{refusal_line};

use crate::lines::push_path;
use crate::why::{REFUSAL_ROOM, refusal_line};
use det_cbor::Text;
use path_model::BadPath;
use std::alloc::{AllocError, Global};
use suit_params::Refusal;

/// The outcome of a command.
#[derive(Clone, Copy, Debug, PartialEq, Eq)]
pub enum Outcome {
    /// Everything that was asked for is done.
    Done,
    /// A procedure is not safe.
    Unsafe,
    /// The words are no command.
    Usage,
    /// The input is not accepted.
    Refused,
    /// An envelope is not authentic under a key.
    NotAuthentic,
    /// A procedure is too wide to judge.
    TooWide,
    /// The flash has no configuration, or a bad one.
    Unconfigured,
    /// The flash has a configuration already.
    NotBlank,
    /// The flash has no record.
    NothingInstalled,
    /// A member that stands apart is not in the envelope.
    Severed,
    /// A member that stands apart has another digest than the manifest states.
    Differs,
    /// The flash's layout lacks a component.
    UnknownComponent,
    /// A file that the words name is not there.
    Absent,
    /// A file is longer than its limit.
    TooLong,
    /// The flash has layout version 2 already.
    SecondLayout,
}

impl Outcome {
    /// The status that the program ends with.
    pub fn status(self) -> u8
        ensures { result ≡ status_of self }
    {
        match self {
            Outcome::Done => 0,
            Outcome::Unsafe => 1,
            Outcome::Usage => 2,
            Outcome::Refused => 3,
            Outcome::NotAuthentic => 4,
            Outcome::TooWide => 12,
            Outcome::Unconfigured => 13,
            Outcome::NotBlank => 14,
            Outcome::NothingInstalled => 15,
            Outcome::Severed => 16,
            Outcome::Differs => 17,
            Outcome::UnknownComponent => 18,
            Outcome::Absent => 20,
            Outcome::TooLong => 21,
            Outcome::SecondLayout => 22,
        }
    }
}

/// An object of the outside, whose calls may fail.
#[derive(Clone, Copy, Debug, PartialEq, Eq)]
pub(crate) enum Object {
    Host,
    Flash,
}

impl Object {
    /// The status where a call of it failed.
    pub(crate) fn status(self) -> u8
        ensures { result ≡ fault_status self }
    {
        match self {
            Object::Host => 7,
            Object::Flash => 8,
        }
    }

    /// The line that says so.
    pub(crate) fn line(self) -> &'static str
        ensures { result.now ≡ fault_line self }
    {
        match self {
            Object::Host => "host fault\n",
            Object::Flash => "flash fault\n",
        }
    }
}

/// An outcome, and the whole lines that are put for it.
#[derive(Debug, Drop)]
pub(crate) struct Reply {
    pub(crate) outcome: Outcome,
    pub(crate) text: Text,
}

impl Reply {
    /// A reply of these lines.
    pub(crate) fn fixed(alloc: Global, outcome: Outcome, lines: &str) -> Result<Reply, AllocError>
        ensures { Makes result outcome lines.now }
    {
        let text = Text::from_str(alloc, lines)?;
        Ok(Reply { outcome, text })
    }

    /// A reply of a text, as a line.
    pub(crate) fn line(text: String) -> Result<Reply, AllocError>
        ensures { Makes result outcomes.Done (string_bytes text ++ codes "\n") }
    {
        let mut line = Text::from_string(text);
        line.push_str("\n")?;
        Ok(Reply {
            outcome: Outcome::Done,
            text: line,
        })
    }

    /// A reply of one line that ends with a name.
    pub(crate) fn named(
        alloc: Global,
        outcome: Outcome,
        word: &str,
        name: &str,
    ) -> Result<Reply, AllocError>
        ensures { Makes result outcome (word.now ++ name.now ++ codes "\n") }
    {
        let mut text = Text::from_str(alloc, word)?;
        text.push_str(name)?;
        text.push_str("\n")?;
        Ok(Reply { outcome, text })
    }

    /// A reply of one line: where in the file the input is refused, and what is wrong there.
    pub(crate) fn refused(alloc: Global, refusal: &Refusal) -> Result<Reply, AllocError>
        ensures { Makes result outcomes.Refused (refusal_line refusal.now) }
    {
        let mut line = String::new(alloc);
        line.reserve(REFUSAL_ROOM)?;
        Ok(Reply {
            outcome: Outcome::Refused,
            text: refusal_line(line, *refusal),
        })
    }

    /// A reply of these lines, followed by those of a path.
    pub(crate) fn with_path(alloc: Global, lines: &str, path: &BadPath) -> Result<Reply, AllocError>
        ensures { Makes result outcomes.Unsafe (lines.now ++ path_lines path.now) }
    {
        let mut text = Text::from_str(alloc, lines)?;
        push_path(alloc, &mut text, path)?;
        Ok(Reply {
            outcome: Outcome::Unsafe,
            text,
        })
    }
}

/// Why a command stops.
#[derive(Debug, Drop)]
pub(crate) enum Stop {
    /// A stage failed, as this reply says.
    Declined(Reply),
    /// A call of this object failed, and its count of faults rose.
    Fault(Object),
    /// Memory ran out.
    NoMemory,
}

impl From<AllocError> for Stop {
    ghost from_gives = { λ e r. r ≡ stops.NoMemory };

    fn from(_error: AllocError) -> Stop {
        Stop::NoMemory
    }
}

/// Stops with this reply.
pub(crate) fn declined(made: Result<Reply, AllocError>) -> Stop
    ensures { result ≡ stop_of made }
{
    match made {
        Ok(reply) => Stop::Declined(reply),
        Err(_) => Stop::NoMemory,
    }
}

/// Stops with this line: the input is refused.
pub(crate) fn refused_by(line: Result<String, AllocError>) -> Stop
    ensures { result ≡ refused_by line }
{
    match line {
        Ok(line) => Stop::Declined(Reply {
            outcome: Outcome::Refused,
            text: Text::from_string(line),
        }),
        Err(_) => Stop::NoMemory,
    }
}
