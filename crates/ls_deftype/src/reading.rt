// What a DEFTYPE form says.

ghost use Rattle.std.specs.Prelude.{◌≡◌, ◌++◌, true, false, Some, Ok, IfOk, IfErr, IsTrue, MatchOption, map, option_to_list};
ghost use Rattle.ls_deftype.specs.LambdaLists.{all_names, are_distinct, none_repeats, with_distinct};
ghost use Rattle.ls_deftype.specs.Bodies.{sole_body};
ghost use Rattle.ls_deftype.specs.Marks.{is_sound};
ghost use Rattle.ls_deftype.specs.Templates as spec;
ghost use Rattle.ls_deftype.specs.Answers.{IsFault, IsFaultOf};
ghost use Rattle.ls_deftype.specs.steps.Lent.{body_lent};

use crate::body::{Body, sole_body};
use crate::fault::TemplateFault;
use crate::lambda::{OptionalParam, Parameters, written};
use crate::mark::Rules;
use crate::names::Names;
use crate::template::Template;
use ls_object::Symbol;
use ls_reader::{Datum, Form};
use std::alloc::{AllocError, Global};

/// Adds the symbols; whether none of them was there or came twice.
fn add_all(names: &mut Names, symbols: &[Symbol]) -> Result<bool, AllocError>
    ensures fresh { IfOk result (λ fresh. fresh ≡ none_repeats names.old symbols.now) }
    ensures names { IfOk result (λ fresh. IsTrue fresh → names.new ≡ names.old ++ symbols.now) }
{
    for symbol in symbols {
        if !names.add(symbol)? {
            return Ok(false);
        }
    }
    Ok(true)
}

/// Adds the names of optional parameters likewise.
fn add_optional(names: &mut Names, optional: &[OptionalParam]) -> Result<bool, AllocError>
    ensures fresh { IfOk result (λ fresh. fresh ≡ none_repeats names.old (map (λ p. p.name) optional.now)) }
    ensures names { IfOk result (λ fresh. IsTrue fresh → names.new ≡ names.old ++ map (λ p. p.name) optional.now) }
{
    for parameter in optional {
        if !names.add(&parameter.name)? {
            return Ok(false);
        }
    }
    Ok(true)
}

/// Adds the name of the rest parameter likewise.
fn add_rest(names: &mut Names, rest: &Option<Symbol>) -> Result<bool, AllocError>
    ensures fresh { IfOk result (λ fresh. fresh ≡ none_repeats names.old (option_to_list rest.now)) }
    ensures names { IfOk result (λ fresh. IsTrue fresh → names.new ≡ names.old ++ option_to_list rest.now) }
{
    match rest {
        Some(symbol) => names.add(symbol),
        None => Ok(true),
    }
}

/// The names of the parameters; `None` where one stands twice.
#[tactic(auto, using(crate::proofs::RepeatLemmas::all_distinct, crate::proofs::RepeatLemmas::first_repeats, crate::proofs::RepeatLemmas::second_repeats, crate::proofs::RepeatLemmas::third_repeats, crate::proofs::RepeatLemmas::names_joined))]
fn names_of(alloc: Global, parameters: &Parameters) -> Result<Option<Names>, AllocError>
    ensures { IfOk result (λ names. MatchOption names
        (are_distinct (all_names parameters.now.required parameters.now.optional parameters.now.rest) ≡ false)
        (λ n. (are_distinct (all_names parameters.now.required parameters.now.optional parameters.now.rest) ≡ true)
        × (n ≡ all_names parameters.now.required parameters.now.optional parameters.now.rest))) }
{
    let mut names = Names::new(alloc);
    if !add_all(&mut names, parameters.required.as_slice())? {
        return Ok(None);
    }
    if !add_optional(&mut names, parameters.optional.as_slice())? {
        return Ok(None);
    }
    if !add_rest(&mut names, &parameters.rest)? {
        return Ok(None);
    }
    Ok(Some(names))
}

/// Whether the commas, splices and backquotes of a body stand where they may.
fn body_is_sound<'a>(
    backquoted: bool,
    body: &Datum,
    names: &'a Names,
    rest: &'a Option<Symbol>,
) -> bool
    ensures { result ≡ is_sound (record { backquoted = backquoted; names = names.now; rest = rest.now }) body.now }
{
    let rules = Rules {
        backquoted,
        names,
        rest: rest.as_ref(),
    };
    rules.is_sound(body)
}

/// The template of a body and parameters, where the body's commas stand where they may.
fn template_with(
    alloc: Global,
    body: Body<'_>,
    parameters: Parameters,
) -> Result<Template, TemplateFault>
    ensures ok { IfOk result (λ t.
        spec.with_parameters (body_lent body.entry) (with_distinct (Some parameters)) ≡ Ok (spec.definition_of t)) }
    ensures err { IfErr result
        (IsFault (spec.with_parameters (body_lent body.entry) (with_distinct (Some parameters)))) }
{
    let Some(names) = names_of(alloc, &parameters)? else {
        return Err(TemplateFault::BadLambdaList);
    };
    if !body_is_sound(body.backquoted, body.datum, &names, &parameters.rest) {
        return Err(TemplateFault::CodeBody);
    }
    let copy = body.datum.copy(alloc)?;
    let Parameters {
        required,
        optional,
        rest,
    } = parameters;
    Ok(Template {
        required,
        optional,
        rest,
        body: copy,
        names,
    })
}

/// The template of the items of a DEFTYPE form behind its name.
fn template_from(alloc: Global, lambda: &Datum, forms: &[Datum]) -> Result<Template, TemplateFault>
    ensures ok { IfOk result (λ t. spec.with_body lambda.now (sole_body forms.now) ≡ Ok (spec.definition_of t)) }
    ensures err { IfErr result (IsFault (spec.with_body lambda.now (sole_body forms.now))) }
{
    let Some(body) = sole_body(forms) else {
        return Err(TemplateFault::CodeBody);
    };
    match written(alloc, lambda)? {
        Some(parameters) => template_with(alloc, body, parameters),
        None => Err(TemplateFault::BadLambdaList),
    }
}

impl Template {
    /// What a DEFTYPE form says: the list of the symbol DEFTYPE, a name, a lambda list, and forms of which exactly
    /// one is a body. The name is not looked at. What can be wrong is looked for in this order: the count and the
    /// kind of the body (CodeBody), the lambda list (BadLambdaList), and the commas, splices and backquotes of the
    /// body (CodeBody).
    pub fn of(alloc: Global, datum: &Datum) -> Result<Template, TemplateFault>
        ensures ok { IfOk result (λ t. spec.template_of datum.now ≡ Ok (spec.definition_of t)) }
        ensures err { IfErr result (IsFaultOf datum.now) }
    {
        let Form::List(items) = &datum.form else {
            return Err(TemplateFault::CodeBody);
        };
        match items.as_slice() {
            [_, _, lambda, forms @ ..] => template_from(alloc, lambda, forms),
            _ => Err(TemplateFault::CodeBody),
        }
    }
}
