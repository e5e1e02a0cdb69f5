//! How a text and a call are called in a sentence.
ghost use Rattle.std.specs.Prelude.{Some};
ghost use Rattle.faults.specs.Words.{which_words, caller_word};

use super::{Caller, Which};
use std::fmt;

impl fmt::Display for Which {
    ghost output = { λ text. Some (which_words text) };

    fn fmt<W: fmt::Write>(&self, f: &mut fmt::Formatter<W>) -> fmt::Result {
        match self {
            Which::Body => write!(f, "the body"),
            Which::Host => write!(f, "the host's text"),
            Which::Address => write!(f, "the address"),
            Which::Name(k) => write!(f, "the name of assignment {k}"),
            Which::Value(k) => write!(f, "the value of assignment {k}"),
        }
    }
}

impl fmt::Display for Caller {
    ghost output = { λ call. Some (caller_word call) };

    fn fmt<W: fmt::Write>(&self, f: &mut fmt::Formatter<W>) -> fmt::Result {
        f.write_str(match self {
            Caller::Press => "press",
            Caller::Follow => "follow",
            Caller::Show => "show",
            Caller::Fill => "fill",
        })
    }
}
