//! Where commands run.

/// The place of a command, and the component that it runs at.
#[derive(Clone, Copy)]
pub(crate) struct Site {
    pub place: u64,
    pub component: u32,
}
