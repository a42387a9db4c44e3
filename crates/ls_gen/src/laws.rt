// Laws about the generated text. Each function is empty: all that it gives is its contract.

ghost use Rattle.std.specs.Prelude.{ℕ, ◌≡◌, ◌≤◌, List, length};
ghost use Rattle.ls_reader.specs.declared.datum.Datum.{Datum};
ghost use Rattle.ls_reader.specs.Forms.{Forms};
ghost use Rattle.ls_gen.specs.Generated.{generated_text};
ghost use Rattle.ls_gen.specs.Shapes.{AreGenerated};

/// The generated text is read without a fault, and within the limit of a text, 16 MiB. Its forms are three for each
/// number below the count, in order: the definition of the number's type, the query about lists, and the query about
/// the number's partner.
pub fn generated_text_is_read()
    ensures short { (n : ℕ) → n ≤ 4096 → length (generated_text n) ≤ 16777216 }
    ensures forms { (n : ℕ) → n ≤ 4096 → (fs : List Datum) × Forms (generated_text n) fs × AreGenerated n fs }
{}
