//! What a session shows beside its responses, and whose its lines are.

use std::marker::Model;

/// What a session shows before its first prompt; what it shows before each line, a number, if it has one, and a prompt;
/// the seat of its first lines, and whether a line may choose another, from 1 to 9.
#[derive(Drop)]
pub struct Style<'a> {
    pub greeting: &'a [u8],
    pub number: &'a [u8],
    pub prompt: &'a [u8],
    pub first: u8,
    pub chooses: bool,
}

impl<'a> Model for Style<'a> {
    ghost use Rattle.std.specs.Prelude.{◌++◌};
    ghost use Rattle.cdb_session.specs.Styles.{StyleView};

    ghost Value = { StyleView };

    ghost view = { λ s. record {
      greeting = s.greeting.now;
      prompt = s.number.now ++ s.prompt.now;
      first = s.first;
      chooses = s.chooses;
    } };
}
