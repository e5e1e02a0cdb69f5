//! Acceptance of tables, wherever they lie: one pass over every record, then the test that the
//! decks' addresses are lawful and different.
#![tactic(auto)]

ghost use Rattle.std.specs.Prelude.{◌≡◌, length, drop, slice_index_or};
ghost use Rattle.tables.specs.Records.{no_deck, size_of};
ghost use Rattle.tables.specs.Meaning.{text_of};
ghost use Rattle.tables.specs.Verdict.{record_ok, table_ok, sound, addresses, among, addressed, judgement};

use address::is_deck_address;
use tables::{Cause, Counts, Table, Tables, part};

/// Whether record `i` of a table keeps its allowances. (Each table has a kind of record of its own.)
pub fn record_ok<T: Tables>(tables: &T, table: Table, i: usize) -> bool
    ensures { result ≡ record_ok (T.Tables.tables tables.now) table i }
{
    let n = tables.counts();
    match table {
        Table::Decks => n.deck_ok(tables.deck(i)),
        Table::Cards => n.card_ok(tables.card(i)),
        Table::Bindings => n.binding_ok(tables.binding(i)),
        Table::Tasks => n.task_ok(tables.task(i)),
        Table::Assignments => n.assignment_ok(tables.assignment(i)),
    }
}

/// How many records a table has.
pub fn size_of(n: Counts, table: Table) -> usize
    ensures { result ≡ size_of n table }
{
    match table {
        Table::Decks => n.decks,
        Table::Cards => n.cards,
        Table::Bindings => n.bindings,
        Table::Tasks => n.tasks,
        Table::Assignments => n.assignments,
    }
}

/// Whether every record of a table keeps its allowances.
fn table_ok<T: Tables>(tables: &T, table: Table) -> bool
    ensures { result ≡ table_ok (T.Tables.tables tables.now) table }
{
    (0..size_of(tables.counts(), table)).all(|i| record_ok(tables, table, i))
}

/// Whether every record of every table keeps its allowances.
pub fn is_sound<T: Tables>(tables: &T) -> bool
    ensures { result ≡ sound (T.Tables.tables tables.now) }
{
    tables.counts().counts_ok()
        && table_ok(tables, Table::Decks)
        && table_ok(tables, Table::Cards)
        && table_ok(tables, Table::Bindings)
        && table_ok(tables, Table::Tasks)
        && table_ok(tables, Table::Assignments)
}

/// The address of deck `k`.
pub fn deck_address<T: Tables>(tables: &T, k: usize) -> &[u8]
    ensures { result.now ≡ text_of (T.Tables.tables tables.now).pool (slice_index_or (T.Tables.tables tables.now).decks k no_deck).address }
{
    part(tables.pool(), tables.deck(k).address).bytes
}

/// Whether an address stands among those of the decks from number `from` on.
pub fn stands_from<T: Tables>(tables: &T, from: usize, address: &[u8]) -> bool
    ensures { result ≡ among (drop from (addresses (T.Tables.tables tables.now))) address.now }
{
    let end = tables.counts().decks;
    for k in from..end {
        if deck_address(tables, k) == address {
            return true;
        }
    }
    false
}

/// Whether every deck's address is lawful, has no number sign, and stands once.
fn is_addressed<T: Tables>(tables: &T) -> bool
    ensures { result ≡ addressed (addresses (T.Tables.tables tables.now)) }
{
    (0..tables.counts().decks).all(|k| {
        let address = deck_address(tables, k);
        is_deck_address(address) && !stands_from(tables, k + 1, address)
    })
}

/// The first cause for which tables are refused, if any. (A `Result` with `?` would be turned back
/// into this `Option` at once.)
pub fn judgement_of<T: Tables>(tables: &T) -> Option<Cause>
    ensures { result ≡ judgement (T.Tables.tables tables.now) }
{
    if !is_sound(tables) {
        Some(Cause::Record)
    } else if !is_addressed(tables) {
        Some(Cause::Address)
    } else {
        None
    }
}
