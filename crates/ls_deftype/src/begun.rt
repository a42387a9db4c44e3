// Copies of data that are begun and not ended.

ghost use Rattle.std.specs.Prelude.{◌≡◌, ◌+◌, ◌++◌, [], ◌∷◌, Some, MatchOption, IfOk};
ghost use Rattle.ls_reader.specs.declared.datum.Form.{roll-Form};
ghost use Rattle.ls_reader.specs.declared.datum.Form.TheOpen.Form-F.{Dotted};
ghost use Rattle.ls_reader.specs.Sizes.{size, size_all};
ghost use Rattle.ls_deftype.specs.steps.Begun as spec;

use ls_reader::{Datum, Form, Span};
use sqlite_items::{Boxed, Items};
use std::alloc::{AllocError, Global};

/// What a datum with parts is.
#[derive(Clone, Copy, Debug, PartialEq, Eq)]
pub(crate) enum Construct {
    List,
    Dotted,
    Vector,
    Quote,
    Back,
    Comma,
    Splice,
    FunctionOf,
}

/// A datum whose copy is begun: the copies of its first parts, and the parts to come, the last of which stands by
/// itself where the datum is no list and no vector.
#[derive(Drop)]
pub(crate) struct Begun<'a> {
    pub span: Span,
    pub construct: Construct,
    pub made: Items<Datum>,
    pub parts: &'a [Datum],
    pub last: Option<&'a Datum>,
}

/// A datum that has no parts is copied at once, and the copy of any other begins.
#[derive(Drop)]
pub(crate) enum Start<'a> {
    Whole(Datum),
    Begun(Begun<'a>),
}

fn begin_construct<'a>(
    span: Span,
    construct: Construct,
    alloc: Global,
    parts: &'a [Datum],
    last: Option<&'a Datum>,
) -> Begun<'a>
    ensures { result
        ≡ record { span = span; construct = construct; made = []; parts = parts.entry; last = last.entry } }
{
    Begun {
        span,
        construct,
        made: Items::new(alloc),
        parts,
        last,
    }
}

fn begin_mark<'a>(span: Span, construct: Construct, alloc: Global, of: &'a Datum) -> Begun<'a>
    ensures parts { spec.left result ≡ of.now ∷ [] }
    ensures rest { (result.made ≡ []) × (result.span ≡ span) × (result.construct ≡ construct) }
{
    begin_construct(span, construct, alloc, &[], Some(of))
}

#[tactic(auto, using(crate::proofs::CopyLemmas::dotted_again, crate::proofs::CopyLemmas::size_dotted))]
fn begin_dotted<'a>(span: Span, alloc: Global, items: &'a [Datum], last: &'a Datum) -> Begun<'a>
    ensures parts { spec.assembled result.construct (result.made ++ spec.left result) ≡ Dotted items.now last.now }
    ensures sizes { size_all (spec.left result) ≡ size_all items.now + size last.now }
    ensures span { result.span ≡ span }
{
    begin_construct(span, Construct::Dotted, alloc, items, Some(last))
}

/// Begins the copy of a datum.
pub(crate) fn begin(alloc: Global, datum: &Datum) -> Result<Start<'_>, AllocError>
    ensures { IfOk result (spec.Starts datum.now) }
{
    let span = datum.span;
    match &datum.form {
        Form::List(items) => Ok(Start::Begun(begin_construct(
            span,
            Construct::List,
            alloc,
            items.as_slice(),
            None,
        ))),
        Form::Vector(items) => Ok(Start::Begun(begin_construct(
            span,
            Construct::Vector,
            alloc,
            items.as_slice(),
            None,
        ))),
        Form::Dotted(items, last) => Ok(Start::Begun(begin_dotted(
            span,
            alloc,
            items.as_slice(),
            last.get(),
        ))),
        Form::Quote(of) => Ok(Start::Begun(begin_mark(span, Construct::Quote, alloc, of.get()))),
        Form::Back(of) => Ok(Start::Begun(begin_mark(span, Construct::Back, alloc, of.get()))),
        Form::Comma(of) => Ok(Start::Begun(begin_mark(span, Construct::Comma, alloc, of.get()))),
        Form::Splice(of) => Ok(Start::Begun(begin_mark(span, Construct::Splice, alloc, of.get()))),
        Form::FunctionOf(of) => Ok(Start::Begun(begin_mark(
            span,
            Construct::FunctionOf,
            alloc,
            of.get(),
        ))),
        Form::Symbol(_)
        | Form::Number(_)
        | Form::Float(_)
        | Form::Char(_)
        | Form::Str(_)
        | Form::Bits(_)
        | Form::Odd => Ok(Start::Whole(datum.copy(alloc)?)),
    }
}

/// A construct whose last part is this.
pub(crate) fn end_with(
    alloc: Global,
    construct: Construct,
    items: Items<Datum>,
    last: Datum,
) -> Result<Form, AllocError>
    ensures { IfOk result (λ f. f ≡ roll-Form (spec.with_last construct (Some (items, last)))) }
{
    match construct {
        Construct::Dotted => Ok(Form::Dotted(items, Boxed::new(alloc, last)?)),
        Construct::Quote => Ok(Form::Quote(Boxed::new(alloc, last)?)),
        Construct::Back => Ok(Form::Back(Boxed::new(alloc, last)?)),
        Construct::Comma => Ok(Form::Comma(Boxed::new(alloc, last)?)),
        Construct::Splice => Ok(Form::Splice(Boxed::new(alloc, last)?)),
        Construct::FunctionOf => Ok(Form::FunctionOf(Boxed::new(alloc, last)?)),
        Construct::List | Construct::Vector => Ok(Form::Odd),
    }
}

fn end_last(alloc: Global, construct: Construct, made: Items<Datum>) -> Result<Form, AllocError>
    ensures { IfOk result (λ f. f ≡ roll-Form (spec.with_last construct (spec.split_last made))) }
{
    let mut items = made;
    match items.pop() {
        Some(last) => end_with(alloc, construct, items, last),
        None => Ok(Form::Odd),
    }
}

/// A construct with these parts in it.
fn assembled(alloc: Global, construct: Construct, made: Items<Datum>) -> Result<Form, AllocError>
    ensures { IfOk result (λ f. f ≡ roll-Form (spec.assembled construct made)) }
{
    match construct {
        Construct::List => Ok(Form::List(made)),
        Construct::Vector => Ok(Form::Vector(made)),
        Construct::Dotted => end_last(alloc, construct, made),
        Construct::Quote => end_last(alloc, construct, made),
        Construct::Back => end_last(alloc, construct, made),
        Construct::Comma => end_last(alloc, construct, made),
        Construct::Splice => end_last(alloc, construct, made),
        Construct::FunctionOf => end_last(alloc, construct, made),
    }
}

impl<'a> Begun<'a> {
    /// The next part that is to be copied, which is then no longer left.
    pub fn next(&mut self) -> Option<&'a Datum>
        ensures { MatchOption result
            ((spec.left self.old ≡ []) × (self.new ≡ self.old))
            (λ d. (spec.left self.old ≡ d.now ∷ spec.left self.new) × spec.AreAlike self.old self.new) }
    {
        let parts = self.parts;
        match parts {
            [first, rest @ ..] => {
                self.parts = rest;
                Some(first)
            }
            [] => self.last.take(),
        }
    }

    /// The datum whose parts are all copied.
    pub fn end(self, alloc: Global) -> Result<Datum, AllocError>
        requires { spec.left self ≡ [] }
        ensures { IfOk result (λ d. d ≡ spec.ended self.entry) }
    {
        let Begun {
            span,
            construct,
            made,
            parts: _,
            last: _,
        } = self;
        Ok(Datum {
            span,
            form: assembled(alloc, construct, made)?,
        })
    }
}
