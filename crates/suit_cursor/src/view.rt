//! Commands as a walk shows them.

ghost use Rattle.std.specs.Prelude.{◌≡◌};
ghost use Rattle.suit_cursor.specs.Lending.{command_of};
ghost use Rattle.suit_cursor.specs.Spelled.{IsShortCommand};
ghost use Rattle.suit_cursor.specs.Views.{shown};
ghost use Rattle.suit_cursor.specs.Walking.{branches_of};
ghost use Rattle.suit_cursor.specs.Within.{branches_in};

use crate::level::Within;
use crate::{IndexView, LentCommand, ParamView};
use suit_commands::{ActKind, TestKind};

/// A command, and the place of its code in bytes from the start of the envelope.
#[derive(Drop)]
pub struct View<'a> {
    pub place: u64,
    pub act: ViewAct<'a>,
}

/// A condition or a directive (draft-ietf-suit-manifest-25, sections 8.4.9 and 8.4.10). The
/// sequences inside it are entered by number.
#[derive(Drop)]
pub enum ViewAct<'a> {
    /// A condition and its reporting policy.
    Test { kind: TestKind, report: u8 },
    /// A directive that acts on contents, and its reporting policy.
    Act { kind: ActKind, report: u8 },
    /// Sets the component index.
    Index(IndexView<'a>),
    /// Overrides parameters.
    Override(ParamView<'a>),
    /// A try each with this many branches.
    TryEach(u32),
    /// Runs a sequence, which is branch 0.
    Run,
}

/// What a walk shows of a command, and what can be entered in it.
pub(crate) fn shown<'a>(command: LentCommand<'a>, count: u32) -> (ViewAct<'a>, Within<'a>)
    requires { IsShortCommand (command_of command) }
    ensures act { result.0 ≡ shown count (command_of command.entry) }
    ensures within { branches_in result.1 ≡ branches_of (command_of command.entry) }
{
    match command {
        LentCommand::Test { kind, report } => (ViewAct::Test { kind, report }, Within::Nothing),
        LentCommand::Act { kind, report } => (ViewAct::Act { kind, report }, Within::Nothing),
        LentCommand::Index(selection) => {
            let view = IndexView::of(selection, count);
            (ViewAct::Index(view), Within::Nothing)
        }
        LentCommand::Override(list) => (ViewAct::Override(list), Within::Nothing),
        LentCommand::TryEach(branches) => {
            let number = branches.len() as u32;
            (ViewAct::TryEach(number), Within::Tries(branches))
        }
        LentCommand::Run(inner) => (ViewAct::Run, Within::Run(inner)),
    }
}
