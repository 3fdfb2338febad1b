//! Commands and their sequences, which hold each other.

ghost use Rattle.std.specs.Prelude.{◌≡◌, OnOk, OnErr, IfOk};
ghost use Rattle.suit_commands.specs.Tree.{NoSteps, NoBranches};
ghost use Rattle.suit_commands.specs.View.{command_tree, sequence_tree, branches_tree, step_after, branch_after};

use crate::{ActKind, Selection, TestKind};
use std::alloc::{AllocError, Global};
use std::marker::Model;
use suit_params::ParamList;

/// A command, and the place of its code in bytes from the start of the envelope.
#[cycle(tree)]
#[derive(Debug, Drop)]
pub struct Step {
    pub place: u64,
    pub command: Command,
}

/// A condition or a directive with its argument (draft-ietf-suit-manifest-25, sections 8.4.9 and 8.4.10).
#[cycle(tree)]
#[derive(Debug, Drop)]
pub enum Command {
    /// A condition and its reporting policy.
    Test { kind: TestKind, report: u8 },
    /// A directive that acts on contents, and its reporting policy.
    Act { kind: ActKind, report: u8 },
    /// Sets the component index.
    Index(Selection),
    /// Overrides parameters.
    Override(ParamList),
    TryEach(Branches),
    /// Runs a sequence.
    Run(Sequence),
}

/// A sequence of commands.
#[cycle(tree)]
#[derive(Debug, Drop)]
pub struct Sequence {
    pub(crate) held: Vec<Step>,
}

/// The sequences of a try each, in their order. `None` stands for null, which does nothing.
#[cycle(tree)]
#[derive(Debug, Drop)]
pub struct Branches {
    pub(crate) held: Vec<Option<Sequence>>,
}

impl Model for Sequence {
    ghost use Rattle.suit_commands.specs.Tree.{SequenceTree};

    ghost Value = { SequenceTree };

    ghost use Rattle.suit_commands.specs.Codes.{coded_sequence};

    ghost coded = { coded_sequence };

    ghost use Rattle.suit_commands.specs.View.{sequence_tree};

    ghost view = { λ a. sequence_tree a.held.items };

    ghost use Rattle.suit_commands.specs.Size.{sequence_size};

    ghost size = { sequence_size };

    ghost use Rattle.suit_commands.specs.Falls.{sequence_falls};

    ghost size_decreases = { λ a h. sequence_falls a.held.items };
}

impl Model for Branches {
    ghost use Rattle.suit_commands.specs.Tree.{BranchesTree};

    ghost Value = { BranchesTree };

    ghost use Rattle.suit_commands.specs.Codes.{coded_branches};

    ghost coded = { coded_branches };

    ghost use Rattle.suit_commands.specs.View.{branches_tree};

    ghost view = { λ a. branches_tree a.held.items };

    ghost use Rattle.suit_commands.specs.Size.{branches_size};

    ghost size = { branches_size };

    ghost use Rattle.suit_commands.specs.Falls.{branches_fall};

    ghost size_decreases = { λ a h. branches_fall a.held.items };
}

impl Sequence {
    /// An empty sequence; allocates nothing until it grows.
    pub fn new(alloc: Global) -> Sequence
        ensures { result ≡ NoSteps }
    {
        Sequence {
            held: Vec::new(alloc),
        }
    }

    /// An empty sequence with room for `steps` commands.
    pub fn with_room(alloc: Global, steps: usize) -> Result<Sequence, AllocError>
        ensures { IfOk result (λ sequence. sequence ≡ NoSteps) }
    {
        Ok(Sequence {
            held: Vec::with_capacity(alloc, steps)?,
        })
    }

    /// Wraps a vector. Allocates and copies nothing.
    pub fn from_vec(steps: Vec<Step>) -> Sequence
        ensures { result ≡ sequence_tree steps.items }
    {
        Sequence { held: steps }
    }

    /// Unwraps the vector. Allocates and copies nothing.
    pub fn into_vec(self) -> Vec<Step>
        ensures { sequence_tree result.items ≡ self }
    {
        self.held
    }

    /// Appends a command. If memory runs out, the command is dropped.
    #[tactic(auto, using(crate::proofs::Pushing::step_pushed))]
    pub fn push(&mut self, step: Step) -> Result<(), AllocError>
        ensures ok { OnOk result
            (self.new ≡ step_after self.old step.place (command_tree step.command)) }
        ensures err { OnErr result (self.new ≡ self.old) }
    {
        Ok(self.held.push(step)?)
    }

    /// Borrows the commands.
    pub fn as_slice(&self) -> &[Step]
        ensures { sequence_tree result.now ≡ self.now }
    {
        self.held.as_slice()
    }
}

impl Branches {
    /// An empty list; allocates nothing until it grows.
    pub fn new(alloc: Global) -> Branches
        ensures { result ≡ NoBranches }
    {
        Branches {
            held: Vec::new(alloc),
        }
    }

    /// An empty list with room for `branches` sequences.
    pub fn with_room(alloc: Global, branches: usize) -> Result<Branches, AllocError>
        ensures { IfOk result (λ list. list ≡ NoBranches) }
    {
        Ok(Branches {
            held: Vec::with_capacity(alloc, branches)?,
        })
    }

    /// Wraps a vector. Allocates and copies nothing.
    pub fn from_vec(branches: Vec<Option<Sequence>>) -> Branches
        ensures { result ≡ branches_tree branches.items }
    {
        Branches { held: branches }
    }

    /// Unwraps the vector. Allocates and copies nothing.
    pub fn into_vec(self) -> Vec<Option<Sequence>>
        ensures { branches_tree result.items ≡ self }
    {
        self.held
    }

    /// Appends a sequence. If memory runs out, the sequence is dropped.
    #[tactic(auto, using(crate::proofs::Pushing::branch_pushed))]
    pub fn push(&mut self, branch: Option<Sequence>) -> Result<(), AllocError>
        ensures ok { OnOk result (self.new ≡ branch_after self.old branch) }
        ensures err { OnErr result (self.new ≡ self.old) }
    {
        Ok(self.held.push(branch)?)
    }

    /// Borrows the sequences.
    pub fn as_slice(&self) -> &[Option<Sequence>]
        ensures { branches_tree result.now ≡ self.now }
    {
        self.held.as_slice()
    }
}
