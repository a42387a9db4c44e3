// The texts of the entries of the upgrading table.

ghost use Rattle.std.specs.Prelude.{ℕ, ◌≡◌, ◌≤◌, ◌<◌, ◌++◌, List, length, map, codes, IsTrue};
ghost use Rattle.std.specs.Str.{IsAscii};
ghost use Rattle.ls_object.specs.ObjectText as text;
ghost use Rattle.ls_object.specs.declared.table.Entry.TheVariants as entry;
ghost use Rattle.ls_tables.specs.steps.Sizes.{are_sized, are_ascii};
ghost use Rattle.ls_tables.specs.steps.Widths.{HasHeldWidth};

use ls_object::{Code, Entry, UPGRADING_TABLE};

/// Lists of a name and each of the numbers.
macro_rules! sized {
    ($name:literal: $($bits:literal)*) => {
        &[$(concat!("(", $name, " ", $bits, ")")),*]
    };
}

/// The text at a place of a list in which each text is one beginning with the number of its place behind it.
fn sized_text(texts: &[&'static str], bits: u32) -> &'static str
    requires { bits < length texts.now }
    ensures text { (head : List ℕ) → IsTrue (are_sized head 0 (map (λ t. t.now) texts.now)) → result.now ≡ head ++ text.natural_text bits ++ codes ")" }
    ensures ascii { IsTrue (are_ascii (map (λ t. t.now) texts.now)) → IsAscii result.now }
{
    texts[bits as usize]
}

/// The specifier of integers of so many bits without a sign.
fn unsigned_text(bits: u32) -> &'static str
    requires { bits ≤ 64 }
    ensures text { result.now ≡ text.entry_text (entry.UnsignedByte bits) }
    ensures ascii { IsAscii result.now }
{
    sized_text(
        sized! {
            "UNSIGNED-BYTE":
                0 1 2 3 4 5 6 7 8 9 10 11 12 13 14 15 16 17 18 19 20 21 22 23 24 25 26 27 28 29 30 31 32 33 34 35 36
                37 38 39 40 41 42 43 44 45 46 47 48 49 50 51 52 53 54 55 56 57 58 59 60 61 62 63 64
        },
        bits,
    )
}

/// The specifier of integers of so many bits with a sign.
fn signed_text(bits: u32) -> &'static str
    requires { bits ≤ 64 }
    ensures text { result.now ≡ text.entry_text (entry.SignedByte bits) }
    ensures ascii { IsAscii result.now }
{
    sized_text(
        sized! {
            "SIGNED-BYTE":
                0 1 2 3 4 5 6 7 8 9 10 11 12 13 14 15 16 17 18 19 20 21 22 23 24 25 26 27 28 29 30 31 32 33 34 35 36
                37 38 39 40 41 42 43 44 45 46 47 48 49 50 51 52 53 54 55 56 57 58 59 60 61 62 63 64
        },
        bits,
    )
}

/// The specifier that an entry stands for.
fn entry_text(entry: Entry) -> &'static str
    requires { HasHeldWidth entry }
    ensures text { result.now ≡ text.entry_text entry }
    ensures ascii { IsAscii result.now }
{
    match entry {
        Entry::Nil => "NIL",
        Entry::Bit => "BIT",
        Entry::UnsignedByte(bits) => unsigned_text(bits),
        Entry::SignedByte(bits) => signed_text(bits),
        Entry::BaseChar => "BASE-CHAR",
        Entry::Character => "CHARACTER",
        Entry::OfKind(kind) => kind.text(),
        Entry::T => "T",
    }
}

/// The element type that the code stands for, as a specifier. It takes no memory.
pub fn code_text(code: Code) -> &'static str
    ensures text { result.now ≡ text.code_text code.index }
    ensures ascii { IsAscii result.now }
{
    entry_text(UPGRADING_TABLE[usize::from(code.index)])
}
