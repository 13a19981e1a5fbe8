//! The keys of a plan's text.

ghost use Rattle.std.specs.Prelude.{◌≡◌};
ghost use Rattle.plan_tables.specs.Keys.{key_text};

use std::fmt;

/// A key that a plan's text may have.
#[derive(Clone, Copy, Debug, PartialEq, Eq)]
pub enum Key {
    Frames,
    Workers,
    Idle,
    Layers,
    Uses,
    Budget,
    Prepare,
    Stack,
    Clock,
    Serve,
    Layer,
    Function,
    Name,
    Image,
    Below,
    Trigger,
    Packets,
}

impl Key {
    /// The key as it stands in the text.
    pub fn text(self) -> &'static str
        ensures { result.now ≡ key_text self }
    {
        match self {
            Key::Frames => "frames",
            Key::Workers => "workers",
            Key::Idle => "idle",
            Key::Layers => "layers",
            Key::Uses => "uses",
            Key::Budget => "budget",
            Key::Prepare => "prepare",
            Key::Stack => "stack",
            Key::Clock => "clock",
            Key::Serve => "serve",
            Key::Layer => "layer",
            Key::Function => "function",
            Key::Name => "name",
            Key::Image => "image",
            Key::Below => "below",
            Key::Trigger => "trigger",
            Key::Packets => "packets",
        }
    }
}

impl fmt::Display for Key {
    ghost use Rattle.std.specs.Prelude.{Some};
    ghost use Rattle.plan_tables.specs.Keys.{key_text};

    ghost output = { λ key. Some (key_text key) };

    fn fmt<W: fmt::Write>(&self, f: &mut fmt::Formatter<W>) -> fmt::Result {
        f.write_str(self.text())
    }
}
