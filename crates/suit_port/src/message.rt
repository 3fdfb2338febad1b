//! Messages to a port.

ghost use Rattle.std.specs.Prelude.{◌≡◌};
ghost use Rattle.suit_port.specs.Messages.{request_number};

/// What a message asks for.
#[derive(Clone, Copy, Debug, PartialEq, Eq)]
pub(crate) enum Request {
    /// Read the flash from a place on.
    Read,
    /// Write the bytes that follow to the flash, from a place on.
    Write,
    /// Make everything that was written durable.
    Sync,
    /// Start the file whose name follows.
    Start,
    /// Read the next bytes of that file.
    Pull,
    /// Store a file: its name follows, and then its bytes.
    Store,
    /// Give the arguments that follow to the image that is launched next.
    Arguments,
    /// Launch bytes of the flash, from a place on.
    LaunchFlash,
    /// Launch the bytes that follow.
    LaunchMemory,
    /// Put out the text that follows.
    Put,
}

impl Request {
    /// The number of the request in a message.
    pub(crate) fn number(self) -> u32
        ensures { result ≡ request_number self }
    {
        match self {
            Request::Read => 1,
            Request::Write => 2,
            Request::Sync => 3,
            Request::Start => 4,
            Request::Pull => 5,
            Request::Store => 6,
            Request::Arguments => 7,
            Request::LaunchFlash => 8,
            Request::LaunchMemory => 9,
            Request::Put => 10,
        }
    }
}

/// A message. The bytes that belong to it are sent after it.
#[derive(Clone, Copy, Debug)]
pub(crate) struct Message {
    pub(crate) request: Request,
    /// The index in the manifest of the component that is launched; otherwise 0.
    pub(crate) component: u32,
    /// A place in the flash in bytes from its start, or the length of the name of a file that is
    /// stored; otherwise 0.
    pub(crate) place: u64,
    /// How many bytes are asked for, or follow. For a file that is stored, the bytes after its
    /// name.
    pub(crate) length: u64,
}

impl Message {
    /// A message of `length` bytes, about no component and no place.
    pub(crate) fn plain(request: Request, length: u64) -> Message
        ensures { result ≡ record { request = request; component = 0; place = 0; length = length } }
    {
        Message {
            request,
            component: 0,
            place: 0,
            length,
        }
    }
}
