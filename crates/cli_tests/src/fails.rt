//! Which calls of the objects fail.

/// The numbers of the calls of each object that fail, counted from 0.
#[derive(Clone, Copy)]
pub(crate) struct Fails<'a> {
    pub(crate) host: &'a [u64],
    pub(crate) flash: &'a [u64],
    pub(crate) launcher: &'a [u64],
    pub(crate) sink: &'a [u64],
}

/// The objects that a run is given.
#[derive(Clone, Copy)]
pub(crate) enum Object {
    Host,
    Flash,
    Launcher,
    Sink,
}

impl<'a> Fails<'a> {
    /// These calls of one object.
    pub(crate) fn of(object: Object, calls: &'a [u64]) -> Fails<'a> {
        let none: &[u64] = &[];
        let (host, flash, launcher, sink) = match object {
            Object::Host => (calls, none, none, none),
            Object::Flash => (none, calls, none, none),
            Object::Launcher => (none, none, calls, none),
            Object::Sink => (none, none, none, calls),
        };
        Fails {
            host,
            flash,
            launcher,
            sink,
        }
    }
}
