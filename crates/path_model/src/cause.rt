//! Why a directive failed.

/// Why a directive failed on a device. The last three causes are faults of the outside.
#[derive(Clone, Copy, Debug, PartialEq, Eq)]
pub enum Cause {
    /// The directive's parameter is not in force.
    Missing,
    /// The directive would copy or swap a component with itself.
    SelfCopy,
    /// The content would have more bytes than its component has room for.
    TooLarge,
    /// There is no payload or file for the URI in force.
    Absent,
    /// The host, which holds the files, failed.
    HostFault,
    /// The flash failed. This ends the procedure in a condition too.
    FlashFault,
    /// The launcher failed.
    LaunchFault,
}
