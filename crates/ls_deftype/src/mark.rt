// Where commas, splices and backquotes may stand in a body (2.4.6).

ghost use Rattle.std.specs.Prelude.{◌≡◌, map};
ghost use Rattle.std.specs.Option.{option_copied};
ghost use Rattle.ls_deftype.specs.Symbols.{symbol_of};
ghost use Rattle.ls_deftype.specs.Marks as spec;
ghost use Rattle.ls_deftype.specs.steps.Lent.{rules_of};

use crate::names::Names;
use crate::symbol::symbol_of;
use ls_object::Symbol;
use ls_reader::{Datum, Form};

/// Where a datum stands in a body.
#[derive(Clone, Copy, Debug, PartialEq, Eq)]
pub(crate) enum Place {
    /// By itself, or before a dot.
    Alone,
    /// Among the elements of a list.
    Element,
    /// Behind a dot.
    Tail,
    /// In quoted data or in a vector, where nothing is filled in.
    Fixed,
}

/// What a body is judged by.
#[derive(Drop)]
pub(crate) struct Rules<'a> {
    pub backquoted: bool,
    pub names: &'a Names,
    pub rest: Option<&'a Symbol>,
}

fn within(at: Place, inner: Place) -> Place
    ensures { result ≡ spec.within at inner }
{
    match at {
        Place::Fixed => Place::Fixed,
        Place::Alone | Place::Element | Place::Tail => inner,
    }
}

/// Whether a datum is the symbol of the rest parameter.
pub(crate) fn is_rest(rest: Option<&Symbol>, datum: &Datum) -> bool
    ensures { result ≡ spec.is_rest (option_copied rest.entry) (symbol_of datum.now) }
{
    match rest {
        Some(rest) => match symbol_of(datum) {
            Some(symbol) => symbol.is(rest),
            None => false,
        },
        None => false,
    }
}

impl Rules<'_> {
    fn is_parameter(&self, datum: &Datum) -> bool
        ensures { result ≡ spec.is_parameter self.now.names.now (symbol_of datum.now) }
    {
        match symbol_of(datum) {
            Some(symbol) => self.names.find(symbol).is_some(),
            None => false,
        }
    }

    fn comma_fits(&self, of: &Datum, at: Place) -> bool
        ensures { result ≡ spec.comma_fits (rules_of self.now) (symbol_of of.now) at }
    {
        match at {
            Place::Fixed => false,
            Place::Tail => is_rest(self.rest, of),
            Place::Alone | Place::Element => self.is_parameter(of),
        }
    }

    fn splice_fits(&self, of: &Datum, at: Place) -> bool
        ensures { result ≡ spec.splice_fits (rules_of self.now) (symbol_of of.now) at }
    {
        match at {
            Place::Element => is_rest(self.rest, of),
            Place::Alone | Place::Tail | Place::Fixed => false,
        }
    }

    /// Whether all of the data may stand at the place.
    #[tactic(auto, using(crate::proofs::MarkLemmas::fit_stops, crate::proofs::MarkLemmas::fit_goes_on))]
    #[cycle(fits)]
    fn all_fit(&self, data: &[Datum], at: Place) -> bool
        ensures { result ≡ spec.all_fit at (map (spec.part (rules_of self.now)) data.now) }
    {
        for datum in data {
            if !self.fits(datum, at) {
                return false;
            }
        }
        true
    }

    /// Whether a datum may stand at a place, with all that is in it.
    #[cycle(fits)]
    fn fits(&self, datum: &Datum, at: Place) -> bool
        ensures { result ≡ (spec.part (rules_of self.now) datum.now).fits at }
    {
        match &datum.form {
            Form::List(parts) => self.all_fit(parts.as_slice(), within(at, Place::Element)),
            Form::Dotted(parts, last) => self.all_fit(parts.as_slice(), within(at, Place::Alone))
                && self.fits(last.get(), within(at, Place::Tail)),
            Form::Vector(parts) => self.all_fit(parts.as_slice(), Place::Fixed),
            Form::Quote(of) | Form::FunctionOf(of) => self.fits(of.get(), within(at, Place::Alone)),
            Form::Back(of) => !self.backquoted && self.fits(of.get(), within(at, Place::Alone)),
            Form::Comma(of) => self.comma_fits(of.get(), at),
            Form::Splice(of) => self.splice_fits(of.get(), at),
            Form::Symbol(_)
            | Form::Number(_)
            | Form::Float(_)
            | Form::Char(_)
            | Form::Str(_)
            | Form::Bits(_)
            | Form::Odd => true,
        }
    }

    /// Whether all commas, splices and backquotes of a body stand where they may.
    pub fn is_sound(&self, body: &Datum) -> bool
        ensures { result ≡ spec.is_sound (rules_of self.now) body.now }
    {
        let at = if self.backquoted {
            Place::Alone
        } else {
            Place::Fixed
        };
        self.fits(body, at)
    }
}
