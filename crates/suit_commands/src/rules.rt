//! The rules by which a sequence of commands is judged.

/// The rules by which a sequence is judged: how many levels of sequences may be inside it, whether
/// it is the shared one, and the number of components.
#[derive(Clone, Copy, Debug)]
pub struct Rules {
    pub levels: u8,
    pub shared: bool,
    pub count: u32,
}
