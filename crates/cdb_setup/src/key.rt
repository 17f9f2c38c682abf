//! The keys of a setup.

ghost use Rattle.std.specs.Prelude.{◌≡◌};
ghost use Rattle.cdb_setup.specs.Format.{name_of};

/// A key of a setup. Each but the version is needed.
#[derive(Clone, Copy, Debug, PartialEq, Eq)]
pub enum Key {
    Algorithm,
    Processes,
    Quorum,
    Inputs,
    Oracle,
    Version,
}

impl Key {
    /// The keys that each setup has, in the order in which they are looked for.
    pub const NEEDED: [Key; 5] = [
        Key::Algorithm,
        Key::Processes,
        Key::Quorum,
        Key::Inputs,
        Key::Oracle,
    ];

    /// The key as it is written: its name in small letters.
    pub fn name(self) -> &'static str
        ensures { result.now ≡ name_of self }
    {
        match self {
            Key::Algorithm => "algorithm",
            Key::Processes => "processes",
            Key::Quorum => "quorum",
            Key::Inputs => "inputs",
            Key::Oracle => "oracle",
            Key::Version => "version",
        }
    }
}
