//! How strongly an event is drawn.

ghost use Rattle.std.specs.Prelude.{◌≡◌};
ghost use Rattle.cdb_draw.specs.Weights.{weigh, weight_text};

/// How strongly the mark and the arrows of an event are drawn.
#[derive(Clone, Copy)]
pub(crate) enum Weight {
    /// It has not led to the step that is asked for.
    Pale,
    /// It has led to that step, or no step is asked for.
    Full,
    /// It is on the trail along which the value came to that step.
    Bold,
}

impl Weight {
    /// That of an event which has led to the step or not, and is on the trail to it or not.
    pub(crate) fn of(led: bool, on_trail: bool) -> Self
        ensures { result ≡ weigh led on_trail }
    {
        match (led, on_trail) {
            (_, true) => Weight::Bold,
            (true, false) => Weight::Full,
            (false, false) => Weight::Pale,
        }
    }

    /// Its class in the style of a picture.
    pub(crate) fn class(self) -> &'static str
        ensures { result.now ≡ weight_text self }
    {
        match self {
            Weight::Pale => "pale",
            Weight::Full => "full",
            Weight::Bold => "bold",
        }
    }
}
