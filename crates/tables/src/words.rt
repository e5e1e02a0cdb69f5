//! How a record of each table is called.
ghost use Rattle.std.specs.Prelude.{Some};
ghost use Rattle.tables.specs.Words.{table_word};

use super::Table;
use std::fmt;

impl fmt::Display for Table {
    ghost output = { λ table. Some (table_word table) };

    fn fmt<W: fmt::Write>(&self, f: &mut fmt::Formatter<W>) -> fmt::Result {
        f.write_str(match self {
            Table::Decks => "deck",
            Table::Cards => "card",
            Table::Bindings => "binding",
            Table::Tasks => "task",
            Table::Assignments => "assignment",
        })
    }
}
