ghost use Rattle.std.specs.Prelude.{ℕ, List, ◌≡◌, ◌≤◌, ◌⊎◌, length, IfOk, IfErr};
ghost use Rattle.std.specs.Str.{chars, IsUtf8, IsValidUpTo};
ghost use Rattle.std.specs.Str.Lossy.{utf8_valid_len};
ghost use Rattle.ls_reader.specs.Forms.{Forms, FormsIn};
ghost use Rattle.ls_reader.specs.Faults.{Fault};
ghost use Rattle.ls_reader.specs.Answers.{IsFaultOf, HasForms, HasFault, ReadsAs, IsFault};
ghost use Rattle.ls_reader.specs.steps.Running.{reading, advance, Turns, IsSmall, IsWithin, failure_at, FailsIn, FailsAt};
ghost use Rattle.ls_reader.specs.declared.datum.Datum.{Datum};
ghost use Rattle.ls_reader.specs.declared.place.Place.{Place};
ghost use Rattle.ls_reader.specs.declared.fault.FaultKind.{FaultKind};

use crate::builder::Builder;
use crate::datum::Datum;
use crate::fault::{Failure, FaultKind, ReadError, Stop};
use crate::lexeme::lexeme;
use crate::place::Place;
use sqlite_items::Items;
use std::alloc::{AllocError, Global};
use std::str;

/// What is left of a text, from where on, and what was read.
#[derive(Drop)]
pub(crate) struct Reader<'a> {
    rest: &'a [char],
    place: Place,
    builder: Builder,
}

/// The failure at a place in a text, from what stopped the lexer at its front.
fn failure_at(stop: Stop, from: Place, text: &[char]) -> Failure
    requires small { IsSmall from text.now }
    requires within { IsWithin stop text.now }
    ensures { result ≡ failure_at stop from text.now }
{
    match stop {
        Stop::Memory => Failure::Memory,
        Stop::Fault(kind, before) => {
            let (front, _) = text.split_at(before);
            Failure::Fault(kind, from.after_all(front))
        }
    }
}

impl<'a> Reader<'a> {
    /// Takes the lexeme at the front.
    fn advance(&mut self, alloc: Global) -> Result<(), Failure>
        requires { IsSmall self.old.place self.old.rest.now }
        ensures { Turns result self.new (advance (reading self.old)) }
    {
        let from = self.place;
        let text = self.rest;
        let (token, rest) = match lexeme(alloc, text) {
            Ok(found) => found,
            Err(stop) => return Err(failure_at(stop, from, text)),
        };
        let (used, _) = text.split_at(text.len() - rest.len());
        let to = from.after_all(used);
        match self.builder.step(alloc, from, to, token) {
            Ok(()) => {
                self.rest = rest;
                self.place = to;
                Ok(())
            }
            Err(e) => Err(e),
        }
    }
}

/// The data of a whole text.
fn read_chars(alloc: Global, text: &[char]) -> Result<Items<Datum>, Failure>
    requires { length text.now ≤ 16777216 }
    ensures ok { IfOk result (FormsIn text.now) }
    ensures err { IfErr result (FailsIn text.now) }
{
    let mut reader = Reader {
        rest: text,
        place: Place::start(),
        builder: Builder::new(alloc),
    };
    'lexemes: while !reader.rest.is_empty() {
        reader.advance(alloc)?;
    }
    match reader.builder.finish() {
        Ok(done) => Ok(done),
        Err(place) => Err(Failure::Fault(FaultKind::Unclosed, place)),
    }
}

/// The characters of a text.
fn decode(alloc: Global, text: &str) -> Result<Vec<char>, AllocError>
    ensures value { IfOk result (λ v. v.items ≡ chars text.now) }
    ensures short { IfOk result (λ v. length v.items ≤ length text.now) }
{
    text.chars().collect(alloc)
}

/// The fault of bytes of which a front is UTF-8, and no longer one.
fn not_utf8(alloc: Global, bytes: &[u8], valid: usize) -> Failure
    requires valid { valid ≡ utf8_valid_len bytes.now }
    requires front { IsValidUpTo bytes.now valid }
    requires short { length bytes.now ≤ 16777216 }
    requires not_utf8 { IsUtf8 bytes.now → ⊥ }
    ensures { FailsAt bytes.now result }
{
    match str::from_utf8(&bytes[..valid]) {
        Ok(text) => match decode(alloc, text) {
            Ok(text) => Failure::Fault(FaultKind::NotUtf8, Place::start().after_all(&text)),
            Err(_) => Failure::Memory,
        },
        Err(_) => unreachable!(),
    }
}

/// The data of bytes, or their first fault.
fn read(alloc: Global, bytes: &[u8]) -> Result<Items<Datum>, Failure>
    requires { length bytes.now ≤ 16777216 }
    ensures ok { IfOk result (Forms bytes.now) }
    ensures err { IfErr result (FailsAt bytes.now) }
{
    match str::from_utf8(bytes) {
        Ok(text) => {
            let text = decode(alloc, text)?;
            read_chars(alloc, &text)
        }
        Err(e) => Err(not_utf8(alloc, bytes, e.valid_up_to())),
    }
}

/// The data of a text in UTF-8 (2.2), or its first fault from left to right.
///
/// A line is 1 plus the count of newlines before, and a column 1 plus the count of characters since the last newline.
/// Lists, vectors, prefixes and `#` constructs that hold a datum may be 256 deep in one another. Fails with the fault
/// that is met first, each at the place that `ReadError` states, and with `Memory` where there is none for the data.
pub fn read_text(alloc: Global, bytes: &[u8]) -> Result<Items<Datum>, ReadError>
    requires { length bytes.now ≤ 16777216 }
    // What is read is what the text says.
    ensures ok { IfOk result (Forms bytes.now) }
    // What the text says is read, unless memory runs out.
    ensures reads { (fs : List Datum) → Forms bytes.now fs → ReadsAs fs result }
    // The fault that is answered is that of the text, at its place.
    ensures fault { IfErr result (IsFaultOf bytes.now) }
    // The fault that the text has is answered, unless memory runs out.
    ensures refuses { (k : FaultKind) (place : Place) → Fault bytes.now k place → IsFault k place result }
{
    match read(alloc, bytes) {
        Ok(forms) => Ok(forms),
        Err(failure) => Err(ReadError::from(failure)),
    }
}

/// The law that each text is one list of forms or has one fault, and never both. It is one about the definitions, so
/// there is nothing to do.
pub fn one_answer()
    ensures some { (bytes : List ℕ) → HasForms bytes ⊎ HasFault bytes }
    ensures forms { (bytes : List ℕ) (fs gs : List Datum) → Forms bytes fs → Forms bytes gs → fs ≡ gs }
    ensures fault { (bytes : List ℕ) (k l : FaultKind) (p q : Place) → Fault bytes k p → Fault bytes l q
        → (k ≡ l) × (p ≡ q) }
    ensures apart { (bytes : List ℕ) → HasForms bytes → HasFault bytes → ⊥ }
{}
