ghost use Rattle.std.specs.Prelude.{◌≡◌, ◌++◌, OnOk, OnErr, codes};
ghost use Rattle.std.specs.List.{flat_map};
ghost use Rattle.std.specs.Str.{IsAscii};
ghost use Rattle.ls_object.specs.ObjectText.{kind_text, natural_text, entry_text, code_text, array_text, dimensions_text, spaced, simple_text};
ghost use Rattle.ls_object.specs.Writing.{AddsFrontOf, after_space};

use crate::kind::Kind;
use crate::table::{Code, Entry, UPGRADING_TABLE};
use crate::text::Text;
use crate::write::numbers::write_natural;
use std::alloc::AllocError;

impl Kind {
    /// Its name.
    pub fn text(&self) -> &'static str
        ensures text { result.now ≡ kind_text self.now }
        ensures ascii { IsAscii result.now }
    {
        match self {
            Kind::SingleFloat => "SINGLE-FLOAT",
            Kind::DoubleFloat => "DOUBLE-FLOAT",
            Kind::Complex => "COMPLEX",
            Kind::Function => "FUNCTION",
            Kind::CompiledFunction => "COMPILED-FUNCTION",
            Kind::HashTable => "HASH-TABLE",
            Kind::Readtable => "READTABLE",
            Kind::Package => "PACKAGE",
            Kind::Pathname => "PATHNAME",
            Kind::LogicalPathname => "LOGICAL-PATHNAME",
            Kind::Stream => "STREAM",
            Kind::RandomState => "RANDOM-STATE",
            Kind::Condition => "CONDITION",
            Kind::Restart => "RESTART",
            Kind::OtherStructure => "OTHER-STRUCTURE",
            Kind::Other => "OTHER",
        }
    }
}

impl Entry {
    /// Appends the specifier that the entry stands for. On an error a front part of its text may stand in
    /// `out`.
    pub fn write_text(&self, out: &mut Text) -> Result<(), AllocError>
        ensures ok { OnOk result (out.new ≡ out.old ++ entry_text self.now) }
        ensures err { OnErr result (AddsFrontOf (entry_text self.now) out.old out.new) }
    {
        match self {
            Entry::Nil => out.push_ascii("NIL"),
            Entry::Bit => out.push_ascii("BIT"),
            Entry::UnsignedByte(bits) => write_sized("(UNSIGNED-BYTE ", *bits, out),
            Entry::SignedByte(bits) => write_sized("(SIGNED-BYTE ", *bits, out),
            Entry::BaseChar => out.push_ascii("BASE-CHAR"),
            Entry::Character => out.push_ascii("CHARACTER"),
            Entry::OfKind(kind) => out.push_ascii(kind.text()),
            Entry::T => out.push_ascii("T"),
        }
    }
}

impl Code {
    /// Appends the element type that the code stands for. On an error a front part of its text may stand in
    /// `out`.
    pub fn write_text(&self, out: &mut Text) -> Result<(), AllocError>
        ensures ok { OnOk result (out.new ≡ out.old ++ code_text self.now.index) }
        ensures err { OnErr result (AddsFrontOf (code_text self.now.index) out.old out.new) }
    {
        UPGRADING_TABLE[self.index as usize].write_text(out)
    }
}

/// Appends the beginning of a list, a number of bits and a closing bracket.
fn write_sized(head: &str, bits: u32, out: &mut Text) -> Result<(), AllocError>
    requires { IsAscii head.now }
    ensures ok { OnOk result (out.new ≡ out.old ++ (head.now ++ natural_text bits ++ codes ")")) }
    ensures err { OnErr result (AddsFrontOf (head.now ++ natural_text bits ++ codes ")") out.old out.new) }
{
    out.push_ascii(head)?;
    write_natural(u128::from(bits), out)?;
    out.push_ascii(")")
}

/// Appends an array: its element type, its dimensions, and whether it is simple. On an error a front part of
/// that text may stand in `out`.
pub fn write_array(
    elem: &Code,
    simple: bool,
    dims: &[u64],
    out: &mut Text,
) -> Result<(), AllocError>
    ensures ok { OnOk result (out.new ≡ out.old ++ array_text elem.now.index simple dims.now) }
    ensures err { OnErr result (AddsFrontOf (array_text elem.now.index simple dims.now) out.old out.new) }
{
    write_array_head(elem, out)?;
    write_dimensions(dims, out)?;
    out.push_ascii(array_end(simple))
}

/// Appends what stands before the dimensions.
fn write_array_head(elem: &Code, out: &mut Text) -> Result<(), AllocError>
    ensures ok { OnOk result (out.new ≡ out.old ++ (codes "#<ARRAY " ++ code_text elem.now.index ++ codes " ")) }
    ensures err { OnErr result (AddsFrontOf (codes "#<ARRAY " ++ code_text elem.now.index ++ codes " ") out.old out.new) }
{
    out.push_ascii("#<ARRAY ")?;
    elem.write_text(out)?;
    out.push_ascii(" ")
}

/// What stands behind the dimensions.
fn array_end(simple: bool) -> &'static str
    ensures text { result.now ≡ simple_text simple ++ codes ">" }
    ensures ascii { IsAscii result.now }
{
    if simple { " SIMPLE>" } else { ">" }
}

/// Appends the dimensions of an array, `()` for rank 0.
fn write_dimensions(dims: &[u64], out: &mut Text) -> Result<(), AllocError>
    ensures ok { OnOk result (out.new ≡ out.old ++ dimensions_text dims.now) }
    ensures err { OnErr result (AddsFrontOf (dimensions_text dims.now) out.old out.new) }
{
    out.push_ascii("(")?;
    write_spaced(dims, out)?;
    out.push_ascii(")")
}

/// Appends the numbers with one space between.
fn write_spaced(numbers: &[u64], out: &mut Text) -> Result<(), AllocError>
    ensures ok { OnOk result (out.new ≡ out.old ++ spaced numbers.now) }
    ensures err { OnErr result (AddsFrontOf (spaced numbers.now) out.old out.new) }
{
    match numbers {
        [] => Ok(()),
        [first, more @ ..] => {
            write_natural(u128::from(*first), out)?;
            write_each_after_space(more, out)
        }
    }
}

/// Appends each number with a space before it.
fn write_each_after_space(numbers: &[u64], out: &mut Text) -> Result<(), AllocError>
    ensures ok { OnOk result (out.new ≡ out.old ++ flat_map after_space numbers.now) }
    ensures err { OnErr result (AddsFrontOf (flat_map after_space numbers.now) out.old out.new) }
{
    for n in numbers {
        write_after_space(*n, out)?;
    }
    Ok(())
}

/// Appends a space and a number.
fn write_after_space(n: u64, out: &mut Text) -> Result<(), AllocError>
    ensures ok { OnOk result (out.new ≡ out.old ++ after_space n) }
    ensures err { OnErr result (AddsFrontOf (after_space n) out.old out.new) }
{
    out.push_ascii(" ")?;
    write_natural(u128::from(n), out)
}
