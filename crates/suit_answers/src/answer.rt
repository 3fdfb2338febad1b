//! The answers of calls from C.

ghost use Rattle.std.specs.Prelude.{◌≡◌};
ghost use Rattle.suit_answers.specs.Answers.{code_of};
ghost use Rattle.suit_answers.specs.declared.answer.Answer.{Answer};

/// The answer of a call from C. Its number is the exit status of the program for the same outcome.
#[derive(Clone, Copy, Debug, PartialEq, Eq)]
pub enum Answer {
    /// The call was done, or what it asks is so.
    Done,
    /// On some path an invoke is not covered.
    Unsafe,
    /// The bytes are refused.
    Refused,
    /// The envelope is not authentic.
    NotAuthentic,
    /// A condition or a directive of the procedure failed.
    Stopped,
    /// A call of the host failed.
    HostFault,
    /// A call of the flash failed.
    FlashFault,
    /// An image could not be launched.
    LaunchFault,
    /// Memory ran out.
    NoMemory,
    /// There is too much to judge.
    TooWide,
    /// The flash has no configuration.
    Unconfigured,
    /// Nothing is installed.
    NothingInstalled,
    /// A severed member is not in the envelope.
    Severed,
    /// A member does not have the digest that the manifest states.
    Differs,
    /// The layout lacks a component.
    UnknownComponent,
    /// The envelope is too long, even when it is trimmed.
    TooLong,
}

impl Answer {
    /// The number that C sees.
    pub fn code(self) -> i32
        ensures code { result ≡ code_of self }
        ensures once { (other : Answer) → result ≡ code_of other → self ≡ other }
    {
        match self {
            Answer::Done => 0,
            Answer::Unsafe => 1,
            Answer::Refused => 3,
            Answer::NotAuthentic => 4,
            Answer::Stopped => 6,
            Answer::HostFault => 7,
            Answer::FlashFault => 8,
            Answer::LaunchFault => 10,
            Answer::NoMemory => 11,
            Answer::TooWide => 12,
            Answer::Unconfigured => 13,
            Answer::NothingInstalled => 15,
            Answer::Severed => 16,
            Answer::Differs => 17,
            Answer::UnknownComponent => 18,
            Answer::TooLong => 21,
        }
    }
}
