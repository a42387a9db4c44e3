ghost use Rattle.std.specs.Prelude.{◌≡◌, ◌++◌, OnOk, OnErr};
ghost use Rattle.ls_object.specs.ObjectText.{number_text, ratio_text, integer_text, natural_text};
ghost use Rattle.ls_object.specs.Writing.{AddsFrontOf};

use crate::rat::Rat;
use crate::text::Text;
use itoa::Buffer;
use std::alloc::AllocError;

impl Rat {
    /// Appends the number in decimal: `n`, or `n/d` where it is no integer (22.1.3.1). On an error a front
    /// part of that text may stand in `out`.
    pub fn write_text(&self, out: &mut Text) -> Result<(), AllocError>
        ensures ok { OnOk result (out.new ≡ out.old ++ number_text self.now.num self.now.den) }
        ensures err { OnErr result (AddsFrontOf (number_text self.now.num self.now.den) out.old out.new) }
    {
        if self.den == 1 {
            write_integer(self.num, out)
        } else {
            write_fraction(self.num, self.den, out)
        }
    }
}

/// Appends a numerator, `/` and a denominator.
fn write_fraction(num: i128, den: u128, out: &mut Text) -> Result<(), AllocError>
    ensures ok { OnOk result (out.new ≡ out.old ++ ratio_text num den) }
    ensures err { OnErr result (AddsFrontOf (ratio_text num den) out.old out.new) }
{
    write_integer(num, out)?;
    out.push_ascii("/")?;
    write_natural(den, out)
}

/// Appends an integer in decimal.
fn write_integer(value: i128, out: &mut Text) -> Result<(), AllocError>
    ensures ok { OnOk result (out.new ≡ out.old ++ integer_text value) }
    ensures err { OnErr result (out.new ≡ out.old) }
{
    let mut buffer = Buffer::new();
    out.push_ascii(buffer.format(value))
}

/// Appends a natural number in decimal.
pub fn write_natural(value: u128, out: &mut Text) -> Result<(), AllocError>
    ensures ok { OnOk result (out.new ≡ out.old ++ natural_text value) }
    ensures err { OnErr result (out.new ≡ out.old) }
{
    let mut buffer = Buffer::new();
    out.push_ascii(buffer.format(value))
}
