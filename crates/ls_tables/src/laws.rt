// Laws about the upgrading table. Each function is empty: all that it gives is its contract.

ghost use Rattle.std.specs.Prelude.{ℕ, ◌≡◌, ◌<◌};
ghost use Rattle.ls_object.specs.declared.table.TheConstants.{TABLE_LEN};
ghost use Rattle.ls_object.specs.Universe.{Structures};
ghost use Rattle.ls_tables.specs.Table.{IsMeeting, LiesWithin, LiesProperlyWithin};

/// The upgrading table is closed under meeting, and each entry stands before every entry that properly holds it
/// (15.1.2.1). The body is empty, since this is a law about the table.
pub fn laws_of_the_table()
    // What two entries both hold is what an entry holds.
    ensures closed { (a b : ℕ) → a < TABLE_LEN → b < TABLE_LEN → (c : ℕ) × (c < TABLE_LEN) × IsMeeting a b c }
    // An entry whose objects are all held by another, which has more, stands before it.
    ensures before { (structures : Structures) (a b : ℕ) → a < TABLE_LEN → b < TABLE_LEN → LiesProperlyWithin structures a b → a < b }
    // No two entries hold the same objects.
    ensures distinct { (structures : Structures) (a b : ℕ) → a < TABLE_LEN → b < TABLE_LEN
        → LiesWithin structures a b → LiesWithin structures b a → a ≡ b }
{}
