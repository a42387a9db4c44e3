// A law about the queries of the generated text. The function is empty: all that it gives is its contract.

ghost use Rattle.std.specs.Prelude.{ℕ, ◌≡◌, ◌≤◌, ◌*◌, List, length};
ghost use Rattle.std.specs.List.{AllByRecursion};
ghost use Rattle.ls_reader.specs.declared.datum.Datum.{Datum};
ghost use Rattle.ls_env.specs.Environments.{environment};
ghost use Rattle.ls_gen.specs.Shapes.{AreGenerated};
ghost use Rattle.ls_gen.specs.Asked.{Compares};

/// Each query of the generated text compares two types, and none is refused.
pub fn generated_queries_are_asked()
    // Two queries stand for each number below the count.
    ensures count { (n : ℕ) (fs : List Datum) → n ≤ 4096 → AreGenerated n fs → length (environment fs).queries ≡ 2 * n }
    // Each is a SUBTYPEP of two quoted types, and each of these resolves.
    ensures asked { (n : ℕ) (fs : List Datum) → n ≤ 4096 → AreGenerated n fs
        → AllByRecursion (Compares (environment fs)) (environment fs).queries }
{}
