//! The kinds of conditions and directives.

ghost use Rattle.std.specs.Prelude.{◌≡◌};
ghost use Rattle.suit_commands.specs.Kinds.{test_code, act_code};

/// A condition (draft-ietf-suit-manifest-25, section 8.4.9).
#[derive(Clone, Copy, Debug, PartialEq, Eq)]
pub enum TestKind {
    /// The vendor identifier in force is the component's.
    Vendor,
    /// The class identifier in force is the component's.
    Class,
    /// The device identifier in force is the component's.
    Device,
    /// The slot number in force is the component's.
    Slot,
    /// The content has the digest in force, and the size if one is in force.
    ImageMatch,
    /// The content equals the parameter in force.
    CheckContent,
    /// Never succeeds.
    Abort,
}

impl TestKind {
    /// The code of the condition in a command sequence.
    pub fn number(self) -> u8
        ensures { result ≡ test_code self }
    {
        match self {
            TestKind::Vendor => 1,
            TestKind::Class => 2,
            TestKind::Device => 24,
            TestKind::Slot => 5,
            TestKind::ImageMatch => 3,
            TestKind::CheckContent => 6,
            TestKind::Abort => 14,
        }
    }
}

/// A directive that acts on a component's content (draft-ietf-suit-manifest-25, section 8.4.10).
#[derive(Clone, Copy, Debug, PartialEq, Eq)]
pub enum ActKind {
    /// Sets the content to a parameter.
    Write,
    /// Sets the content to what a URI names.
    Fetch,
    /// Sets the content to that of another component.
    Copy,
    /// Hands the content to the launcher.
    Invoke,
    /// Exchanges the content with that of another component.
    Swap,
}

impl ActKind {
    /// The code of the directive in a command sequence.
    pub fn number(self) -> u8
        ensures { result ≡ act_code self }
    {
        match self {
            ActKind::Write => 18,
            ActKind::Fetch => 21,
            ActKind::Copy => 22,
            ActKind::Invoke => 23,
            ActKind::Swap => 31,
        }
    }
}
