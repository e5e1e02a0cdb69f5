//! Two stores with the same limits and the same meaning cannot be told apart, whatever their memories are.
#![tactic(auto)]

ghost use Rattle.std.specs.Prelude.{◌≡◌, true, [], ◌∷◌};
ghost use Rattle.store_laws.specs.Working.{after, Worked, answers_alike, all_alike};
ghost use Rattle.store_laws.specs.Alike.{Alike};

use store::Store;

mod operation;

pub use operation::Operation;

/// Asks both stores the same, and answers whether they answered alike.
///
/// Two stores that mean the same under the same limits answer alike, and mean the same after it.
pub fn work_both<A: Store, B: Store>(a: &mut A, b: &mut B, operation: Operation<'_>) -> bool
    ensures answer { result ≡ answers_alike (A.Store.limits a.old) (A.Store.meaning a.old) (B.Store.limits b.old) (B.Store.meaning b.old) operation.entry }
    ensures first { Worked (A.Store.limits a.old) (A.Store.meaning a.old) (operation.entry ∷ []) (A.Store.limits a.new) (A.Store.meaning a.new) }
    ensures second { Worked (B.Store.limits b.old) (B.Store.meaning b.old) (operation.entry ∷ []) (B.Store.limits b.new) (B.Store.meaning b.new) }
    ensures law { Alike (A.Store.limits a.old) (A.Store.meaning a.old) (B.Store.limits b.old) (B.Store.meaning b.old) → (result ≡ true) × Alike (A.Store.limits a.new) (A.Store.meaning a.new) (B.Store.limits b.new) (B.Store.meaning b.new) }
{
    match operation {
        Operation::Set(name, value) => a.set(name, value) == b.set(name, value),
        Operation::Clear => {
            a.clear();
            b.clear();
            true
        }
        Operation::Value(name) => a.value(name) == b.value(name),
        Operation::Count => a.count() == b.count(),
        Operation::Bytes => a.bytes() == b.bytes(),
        Operation::MostNames => a.most_names() == b.most_names(),
        Operation::MostBytes => a.most_bytes() == b.most_bytes(),
    }
}

/// Asks both stores the same, one operation after another, and answers whether they answered all alike.
///
/// Two stores that mean the same under the same limits answer all alike, and mean the same after them.
pub fn work_all_both<A: Store, B: Store>(a: &mut A, b: &mut B, operations: &[Operation<'_>]) -> bool
    ensures answers { result ≡ all_alike (A.Store.limits a.old) (A.Store.meaning a.old) (B.Store.limits b.old) (B.Store.meaning b.old) operations.now }
    ensures first { Worked (A.Store.limits a.old) (A.Store.meaning a.old) operations.now (A.Store.limits a.new) (A.Store.meaning a.new) }
    ensures second { Worked (B.Store.limits b.old) (B.Store.meaning b.old) operations.now (B.Store.limits b.new) (B.Store.meaning b.new) }
    ensures law { Alike (A.Store.limits a.old) (A.Store.meaning a.old) (B.Store.limits b.old) (B.Store.meaning b.old) → (result ≡ true) × Alike (A.Store.limits a.new) (A.Store.meaning a.new) (B.Store.limits b.new) (B.Store.meaning b.new) }
{
    let mut all = true;
    for operation in operations {
        all &= work_both(a, b, *operation);
    }
    all
}
