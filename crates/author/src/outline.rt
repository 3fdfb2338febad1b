//! The outline of a description.

ghost use Rattle.std.specs.Prelude.{◌≡◌};
ghost use Rattle.serde_json.specs.View.{view};
ghost use Rattle.author.specs.Outlines.{no_values, noted, outline_of, outline_view};

use serde_json::Value;

/// The values of a description's sequences and of `sever`.
#[derive(Clone, Copy)]
pub(crate) struct Outline<'v> {
    pub(crate) shared: Option<&'v Value>,
    pub(crate) validate: Option<&'v Value>,
    pub(crate) load: Option<&'v Value>,
    pub(crate) invoke: Option<&'v Value>,
    pub(crate) payload_fetch: Option<&'v Value>,
    pub(crate) install: Option<&'v Value>,
    pub(crate) sever: Option<&'v Value>,
}

impl<'v> Outline<'v> {
    // No values of this description yet.
    fn none(_description: &'v Value) -> Outline<'v>
        ensures { outline_view result ≡ no_values }
    {
        Outline {
            shared: None,
            validate: None,
            load: None,
            invoke: None,
            payload_fetch: None,
            install: None,
            sever: None,
        }
    }

    fn noting(mut self, key: &str, value: &'v Value) -> Outline<'v>
        ensures { outline_view result
            ≡ noted (outline_view self.entry) key.now (view value.now) }
    {
        match key {
            "shared" => self.shared = Some(value),
            "validate" => self.validate = Some(value),
            "load" => self.load = Some(value),
            "invoke" => self.invoke = Some(value),
            "payload-fetch" => self.payload_fetch = Some(value),
            "install" => self.install = Some(value),
            "sever" => self.sever = Some(value),
            _ => {}
        }
        self
    }

    /// The outline of a description.
    pub(crate) fn of(description: &'v Value) -> Outline<'v>
        ensures { outline_view result ≡ outline_of (view description.now) }
    {
        let mut outline = Outline::none(description);
        let Some(members) = description.as_object() else {
            return outline;
        };
        for (key, member) in members.iter() {
            outline = outline.noting(key.as_str(), member);
        }
        outline
    }
}
