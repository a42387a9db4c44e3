// Copies of data, and their sizes.

ghost use Rattle.std.specs.Prelude.{◌≡◌, ◌-◌, ◌^◌, min, IfOk};
ghost use Rattle.ls_reader.specs.Sizes.{size, form_size, size_all};

use crate::datum::{Datum, Form};
use sqlite_items::{Boxed, Items};
use std::alloc::{AllocError, Global};

impl Datum {
    /// An equal datum.
    #[cycle(copy)]
    pub fn copy(&self, alloc: Global) -> Result<Datum, AllocError>
        ensures { IfOk result (λ d. d ≡ self.now) }
    {
        Ok(Datum {
            span: self.span,
            form: self.form.copy(alloc)?,
        })
    }

    /// The count of data in it, itself included, or the greatest u64 where that count is more.
    #[cycle(size)]
    pub fn size(&self) -> u64
        ensures { result ≡ min (size self.now) (2 ^ 64 - 1) }
    {
        self.form.size()
    }
}

impl Form {
    #[cycle(copy)]
    fn copy(&self, alloc: Global) -> Result<Form, AllocError>
        ensures { IfOk result (λ f. f ≡ self.now) }
    {
        match self {
            Form::Symbol(symbol) => Ok(Form::Symbol(symbol.copy()?)),
            Form::Number(literal) => Ok(Form::Number(*literal)),
            Form::Float(format) => Ok(Form::Float(*format)),
            Form::Char(c) => Ok(Form::Char(*c)),
            Form::Str(text) => Ok(Form::Str(text.copy()?)),
            Form::List(items) => Ok(Form::List(copy_all(alloc, items.as_slice())?)),
            Form::Dotted(items, last) => {
                let items = copy_all(alloc, items.as_slice())?;
                Ok(Form::Dotted(items, copy_boxed(alloc, last.get())?))
            }
            Form::Vector(items) => Ok(Form::Vector(copy_all(alloc, items.as_slice())?)),
            Form::Bits(count) => Ok(Form::Bits(*count)),
            Form::Quote(of) => Ok(Form::Quote(copy_boxed(alloc, of.get())?)),
            Form::Back(of) => Ok(Form::Back(copy_boxed(alloc, of.get())?)),
            Form::Comma(of) => Ok(Form::Comma(copy_boxed(alloc, of.get())?)),
            Form::Splice(of) => Ok(Form::Splice(copy_boxed(alloc, of.get())?)),
            Form::FunctionOf(of) => Ok(Form::FunctionOf(copy_boxed(alloc, of.get())?)),
            Form::Odd => Ok(Form::Odd),
        }
    }

    #[cycle(size)]
    fn size(&self) -> u64
        ensures { result ≡ min (form_size self.now) (2 ^ 64 - 1) }
    {
        match self {
            Form::List(items) | Form::Vector(items) => size_all(items.as_slice()).saturating_add(1),
            Form::Dotted(items, last) => {
                let front = size_all(items.as_slice());
                front.saturating_add(last.get().size()).saturating_add(1)
            }
            Form::Quote(of)
            | Form::Back(of)
            | Form::Comma(of)
            | Form::Splice(of)
            | Form::FunctionOf(of) => of.get().size().saturating_add(1),
            Form::Symbol(_)
            | Form::Number(_)
            | Form::Float(_)
            | Form::Char(_)
            | Form::Str(_)
            | Form::Bits(_)
            | Form::Odd => 1,
        }
    }
}

#[cycle(copy)]
fn copy_boxed(alloc: Global, datum: &Datum) -> Result<Boxed<Datum>, AllocError>
    ensures { IfOk result (λ b. b ≡ datum.now) }
{
    Ok(Boxed::new(alloc, datum.copy(alloc)?)?)
}

#[cycle(copy)]
fn copy_all(alloc: Global, items: &[Datum]) -> Result<Items<Datum>, AllocError>
    ensures { IfOk result (λ all. all ≡ items.now) }
{
    let mut all = Vec::with_capacity(alloc, items.len())?;
    for item in items {
        all.push(item.copy(alloc)?)?;
    }
    Ok(Items::from_vec(all))
}

#[cycle(size)]
fn size_all(items: &[Datum]) -> u64
    ensures { result ≡ min (size_all items.now) (2 ^ 64 - 1) }
{
    let mut count: u64 = 0;
    for item in items {
        count = count.saturating_add(item.size());
    }
    count
}
