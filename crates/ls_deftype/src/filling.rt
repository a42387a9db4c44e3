// A body with arguments in the places of its commas and splices.

ghost use Rattle.std.specs.Prelude.{◌≡◌, ◌≤◌, ◌+◌, [], ◌∷◌, ◌++◌, length, Some, None, if◌then◌else◌};
ghost use Rattle.ls_reader.specs.Sizes.{size, size_all};
ghost use Rattle.ls_deftype.specs.Arguments as arguments;
ghost use Rattle.ls_deftype.specs.Substitution as spec;
ghost use Rattle.ls_deftype.specs.steps.Begun.{with_data};
ghost use Rattle.ls_deftype.specs.steps.Room.{Takes};
ghost use Rattle.ls_deftype.specs.steps.Filling.{use_of, each, elements, Puts};

use crate::arguments::{Use, Value, listed};
use crate::begun::{Construct, end_with};
use crate::copying::{copy_all_onto, copy_within};
use crate::mark::is_rest;
use crate::room::{Stop, take_one};
use ls_reader::{Datum, Form, Span};
use sqlite_items::{Boxed, Items};

impl Use<'_> {
    /// The list of these data and the arguments that are left.
    fn with_rest(&self, at: Span, items: Items<Datum>, room: &mut u64) -> Result<Datum, Stop>
        requires { length self.now.template.now.required ≤ length self.now.args.now }
        ensures { Takes (λ d. d ≡ arguments.listed at (items ++ arguments.rest_args (use_of self.now)))
            (size_all (arguments.rest_args (use_of self.now))) room.old room.new result }
    {
        let mut items = items;
        copy_all_onto(self.alloc, self.rest_args(), &mut items, room)?;
        Ok(listed(self.alloc, at, items)?)
    }

    /// The list of the arguments that are left.
    fn rest_list(&self, room: &mut u64) -> Result<Datum, Stop>
        requires { length self.now.template.now.required ≤ length self.now.args.now }
        ensures { Takes (λ d. d ≡ arguments.listed self.now.place (arguments.rest_args (use_of self.now)))
            (size_all (arguments.rest_args (use_of self.now)) + 1) room.old room.new result }
    {
        take_one(room)?;
        Ok(self.with_rest(self.place, Items::new(self.alloc), room)?)
    }

    /// What stands in the place of a comma that holds a datum.
    #[tactic(auto, using(crate::proofs::FillLemmas::symbol_filled, crate::proofs::FillLemmas::size_listed))]
    #[cycle(fill)]
    fn fill_comma(&self, at: Span, of: &Datum, room: &mut u64) -> Result<Datum, Stop>
        requires { length self.now.template.now.required ≤ length self.now.args.now }
        ensures { Takes (λ d. d ≡ (spec.comma (use_of self.now) at (spec.filled (use_of self.now) of.now)).one)
            (size (spec.comma (use_of self.now) at (spec.filled (use_of self.now) of.now)).one)
            room.old room.new result }
    {
        match self.value_of(of) {
            Value::Datum(value) => copy_within(self.alloc, value, room),
            Value::Rest => self.rest_list(room),
            Value::None => {
                take_one(room)?;
                Ok(Datum {
                    span: at,
                    form: Form::Comma(self.fill_boxed(of, room)?),
                })
            }
        }
    }

    #[cycle(fill)]
    fn fill_boxed(&self, of: &Datum, room: &mut u64) -> Result<Boxed<Datum>, Stop>
        requires { length self.now.template.now.required ≤ length self.now.args.now }
        ensures { Takes (λ d. d ≡ (spec.filled (use_of self.now) of.now).one)
            (size (spec.filled (use_of self.now) of.now).one) room.old room.new result }
    {
        let datum = self.fill(of, room)?;
        Ok(Boxed::new(self.alloc, datum)?)
    }

    /// What stands in the place of a datum that holds one, as `'` and `#'` do.
    #[cycle(fill)]
    fn fill_mark(
        &self,
        at: Span,
        construct: Construct,
        of: &Datum,
        room: &mut u64,
    ) -> Result<Datum, Stop>
        requires { length self.now.template.now.required ≤ length self.now.args.now }
        ensures { Takes
            (λ d. d ≡ arguments.datum at (with_data construct ([], (spec.filled (use_of self.now) of.now).one)))
            (size (spec.filled (use_of self.now) of.now).one + 1) room.old room.new result }
    {
        take_one(room)?;
        let last = self.fill(of, room)?;
        let form = end_with(self.alloc, construct, Items::new(self.alloc), last)?;
        Ok(Datum { span: at, form })
    }

    /// Whether a datum is a comma of the rest parameter.
    fn is_rest_comma(&self, datum: &Datum) -> bool
        ensures { (spec.filled (use_of self.now) datum.now).spliced
            ≡ (if result then Some (arguments.rest_args (use_of self.now)) else None) }
    {
        match &datum.form {
            Form::Comma(of) => is_rest(self.template.rest.as_ref(), of.get()),
            _ => false,
        }
    }

    /// What stands in the place of a datum of the body.
    #[tactic(auto, using(crate::proofs::FillLemmas::size_listed, crate::proofs::FillLemmas::size_dotted_with))]
    #[cycle(fill)]
    pub fn fill(&self, datum: &Datum, room: &mut u64) -> Result<Datum, Stop>
        requires { length self.now.template.now.required ≤ length self.now.args.now }
        ensures { Takes (λ d. d ≡ (spec.filled (use_of self.now) datum.now).one)
            (size (spec.filled (use_of self.now) datum.now).one) room.old room.new result }
    {
        match &datum.form {
            Form::Comma(of) => self.fill_comma(datum.span, of.get(), room),
            Form::Dotted(parts, last) => {
                take_one(room)?;
                let items = self.fill_each(parts.as_slice(), room)?;
                if self.is_rest_comma(last.get()) {
                    return Ok(self.with_rest(datum.span, items, room)?);
                }
                Ok(Datum {
                    span: datum.span,
                    form: Form::Dotted(items, self.fill_boxed(last.get(), room)?),
                })
            }
            Form::Symbol(_)
            | Form::Number(_)
            | Form::Float(_)
            | Form::Char(_)
            | Form::Str(_)
            | Form::Bits(_)
            | Form::Odd => copy_within(self.alloc, datum, room),
            Form::List(parts) => {
                take_one(room)?;
                let items = self.fill_elements(parts.as_slice(), room)?;
                Ok(listed(self.alloc, datum.span, items)?)
            }
            Form::Vector(parts) => {
                take_one(room)?;
                Ok(Datum {
                    span: datum.span,
                    form: Form::Vector(self.fill_each(parts.as_slice(), room)?),
                })
            }
            Form::Quote(of) => self.fill_mark(datum.span, Construct::Quote, of.get(), room),
            Form::Back(of) => self.fill_mark(datum.span, Construct::Back, of.get(), room),
            Form::Splice(of) => self.fill_mark(datum.span, Construct::Splice, of.get(), room),
            Form::FunctionOf(of) => self.fill_mark(
                datum.span,
                Construct::FunctionOf,
                of.get(),
                room,
            ),
        }
    }

    /// What stands in the places of data before a dot or in a vector, one datum for each.
    #[tactic(auto, using(crate::proofs::FillLemmas::each_drop, crate::proofs::SizeLemmas::size_cons))]
    #[cycle(fill)]
    fn fill_each(&self, parts: &[Datum], room: &mut u64) -> Result<Items<Datum>, Stop>
        requires { length self.now.template.now.required ≤ length self.now.args.now }
        ensures { Takes (λ ds. ds ≡ each (use_of self.now) parts.now)
            (size_all (each (use_of self.now) parts.now)) room.old room.new result }
    {
        let mut items = Items::new(self.alloc);
        for part in parts {
            items.push(self.fill(part, room)?)?;
        }
        Ok(items)
    }

    /// What stands in the places of the elements of a list.
    #[tactic(auto, using(crate::proofs::FillLemmas::elements_drop, crate::proofs::SizeLemmas::sizes_append))]
    #[cycle(fill)]
    fn fill_elements(&self, parts: &[Datum], room: &mut u64) -> Result<Items<Datum>, Stop>
        requires { length self.now.template.now.required ≤ length self.now.args.now }
        ensures { Takes (λ ds. ds ≡ elements (use_of self.now) parts.now)
            (size_all (elements (use_of self.now) parts.now)) room.old room.new result }
    {
        let mut items = Items::new(self.alloc);
        for part in parts {
            self.push_filled(part, &mut items, room)?;
        }
        Ok(items)
    }

    /// Puts what stands in the place of an element of a list behind other data.
    #[tactic(auto, using(crate::proofs::SizeLemmas::size_one))]
    #[cycle(fill)]
    fn push_filled(&self, part: &Datum, out: &mut Items<Datum>, room: &mut u64) -> Result<(), Stop>
        requires { length self.now.template.now.required ≤ length self.now.args.now }
        ensures { Puts (spec.filled (use_of self.now) part.now).all out.old out.new room.old room.new result }
    {
        if self.is_rest_splice(part) {
            return copy_all_onto(self.alloc, self.rest_args(), out, room);
        }
        out.push(self.fill(part, room)?)?;
        Ok(())
    }

    /// Whether a datum is a splice of the rest parameter.
    fn is_rest_splice(&self, datum: &Datum) -> bool
        ensures { (spec.filled (use_of self.now) datum.now).all
            ≡ (if result then arguments.rest_args (use_of self.now)
            else (spec.filled (use_of self.now) datum.now).one ∷ []) }
    {
        match &datum.form {
            Form::Splice(of) => is_rest(self.template.rest.as_ref(), of.get()),
            _ => false,
        }
    }
}
