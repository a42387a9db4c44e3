ghost use Rattle.std.specs.Prelude.{◌≡◌, ◌++◌, IfOk, OnOk, OnErr, string_bytes, encode_utf8};

use arrayvec::ArrayString;
use std::alloc::{AllocError, Global};

/// The number of bytes up to which a text is kept without an allocation.
pub const SHORT_LEN: usize = 16;

/// The bytes of a text: those of a short one are kept in place, others in an allocation.
#[derive(Drop)]
pub enum Stored {
    Short(ArrayString<SHORT_LEN>),
    Long(String),
}

impl Stored {
    ghost use Rattle.ls_object.specs.Stored.{stored_bytes};

    /// The bytes of `s`.
    pub fn of(alloc: Global, s: &str) -> Result<Stored, AllocError>
        ensures { IfOk result (λ t. stored_bytes t ≡ s.now) }
    {
        match ArrayString::from(s) {
            Ok(short) => Ok(Stored::Short(short)),
            Err(_) => Ok(Stored::Long(String::from_str(alloc, s)?)),
        }
    }

    /// The bytes as a string slice.
    pub fn as_str(&self) -> &str
        ensures { result.now ≡ stored_bytes self.now }
    {
        match self {
            Stored::Short(s) => s.as_str(),
            Stored::Long(s) => s.as_str(),
        }
    }

    /// Appends the bytes of `s`.
    pub fn push_str(&mut self, alloc: Global, s: &str) -> Result<(), AllocError>
        ensures ok { OnOk result (stored_bytes self.new ≡ stored_bytes self.old ++ s.now) }
        ensures err { OnErr result (stored_bytes self.new ≡ stored_bytes self.old) }
    {
        match self {
            Stored::Short(short) => {
                if short.try_push_str(s).is_ok() {
                    return Ok(());
                }
                let long = joined(alloc, short.as_str(), s)?;
                *self = Stored::Long(long);
                Ok(())
            }
            Stored::Long(long) => long.push_str(s),
        }
    }

    /// Appends the bytes of a character.
    pub fn push(&mut self, alloc: Global, c: char) -> Result<(), AllocError>
        ensures ok { OnOk result (stored_bytes self.new ≡ stored_bytes self.old ++ encode_utf8 c) }
        ensures err { OnErr result (stored_bytes self.new ≡ stored_bytes self.old) }
    {
        match self {
            Stored::Short(short) => {
                if short.try_push(c).is_ok() {
                    return Ok(());
                }
                let mut long = String::from_str(alloc, short.as_str())?;
                long.push(c)?;
                *self = Stored::Long(long);
                Ok(())
            }
            Stored::Long(long) => long.push(c),
        }
    }

    /// An equal text.
    pub fn copy(&self) -> Result<Stored, AllocError>
        ensures { IfOk result (λ t. stored_bytes t ≡ stored_bytes self.now) }
    {
        match self {
            Stored::Short(s) => Ok(Stored::Short(*s)),
            Stored::Long(s) => Ok(Stored::Long(s.clone()?)),
        }
    }
}

/// The bytes of the two, one behind the other.
fn joined(alloc: Global, first: &str, second: &str) -> Result<String, AllocError>
    ensures { IfOk result (λ s. string_bytes s ≡ first.now ++ second.now) }
{
    let mut text = String::from_str(alloc, first)?;
    text.push_str(second)?;
    Ok(text)
}
