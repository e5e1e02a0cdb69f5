//! How a kind of task is called.
ghost use Rattle.std.specs.Prelude.{Some};
ghost use Rattle.decks.specs.Words.{kind_word};

use super::Kind;
use std::fmt;

impl fmt::Display for Kind {
    ghost output = { λ kind. Some (kind_word kind) };

    fn fmt<W: fmt::Write>(&self, f: &mut fmt::Formatter<W>) -> fmt::Result {
        f.write_str(match self {
            Kind::Noop => "noop",
            Kind::Go => "go",
            Kind::Prev => "prev",
            Kind::Refresh => "refresh",
        })
    }
}
