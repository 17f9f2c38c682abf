//! The world of the program: files, standard input, standard output and standard error.

ghost use Rattle.cdb_program.specs.Known.{Seen};

use crate::files::Files;
use cdb_session::Streams;
use cdb_streams::{Sink, Source};
use std::marker::Model;

/// The world of the program. Contracts see it as what is known of its files and streams.
#[derive(Drop)]
pub struct World<F: Files + Drop, I: Source + Drop, O: Sink + Drop, E: Sink + Drop> {
    pub files: F,
    /// Standard input and standard output, over which a session can take place, and where it writes new files.
    pub streams: Streams<I, O, F::New>,
    pub error: E,
}

impl<F: Files + Drop, I: Source + Drop, O: Sink + Drop, E: Sink + Drop> Model
    for World<F, I, O, E> {
    ghost Value = { Seen };

    ghost view = { λ world. record {
      files = F.seen world.files;
      input = I.stream world.streams.input;
      output = O.stream world.streams.output;
      saved = F.New.saved world.streams.files;
      error = E.stream world.error;
    } };
}
