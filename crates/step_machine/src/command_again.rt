//! Commands lent again, for another component.

ghost use Rattle.std.specs.Prelude.{◌≡◌};

use suit_cursor::{LentCommand, LentSelection};

fn selection_again<'p>(selection: &mut LentSelection<'p>) -> LentSelection<'p>
    ensures copied { result ≡ selection.old }
    ensures same { selection.new ≡ selection.old }
{
    match selection {
        LentSelection::One(component) => LentSelection::One(*component),
        LentSelection::All => LentSelection::All,
        LentSelection::Listed(indices) => LentSelection::Listed(indices.copy()),
    }
}

/// The same command, lent again.
pub(crate) fn command_again<'p>(command: &mut LentCommand<'p>) -> LentCommand<'p>
    ensures copied { result ≡ command.old }
    ensures same { command.new ≡ command.old }
{
    match command {
        LentCommand::Test { kind, report } => LentCommand::Test {
            kind: *kind,
            report: *report,
        },
        LentCommand::Act { kind, report } => LentCommand::Act {
            kind: *kind,
            report: *report,
        },
        LentCommand::Index(selection) => LentCommand::Index(selection_again(selection)),
        LentCommand::Override(list) => LentCommand::Override(list.copy()),
        LentCommand::TryEach(branches) => LentCommand::TryEach(branches.copy()),
        LentCommand::Run(inner) => LentCommand::Run(inner.copy()),
    }
}
