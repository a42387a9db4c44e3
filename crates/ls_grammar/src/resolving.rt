// From a datum to the specifier that it denotes, or the first thing that is wrong with it.

ghost use Rattle.std.specs.Prelude.{◌≡◌, map, Some, IfOk, IfErr};
ghost use Rattle.ls_reader.specs.declared.datum.Datum.{Datum};
ghost use Rattle.ls_deftype.specs.Templates.{definition_of};
ghost use Rattle.ls_env.specs.Environments.{Environment, structures_of};
ghost use Rattle.ls_spec.specs.Specifier.{Specifier, eql_to};
ghost use Rattle.ls_spec.specs.Meaning.{specifier};
ghost use Rattle.ls_spec.specs.Fits.{Fits};
ghost use Rattle.ls_grammar.specs.declared.refusal.Refusal.{Refusal};
ghost use Rattle.ls_grammar.specs.Denoting.{eql_of, number_point};
ghost use Rattle.ls_grammar.specs.ArrayLevels.{elements};
ghost use Rattle.ls_grammar.specs.Saying.{use_of};
ghost use Rattle.ls_grammar.specs.steps.Answering.{lent, shown, IsExpandable, Steps, Gives, stopped};
ghost use Rattle.ls_grammar.specs.steps.Running.{run_object, run_all, run_part, run_pair, run_level, run_entered, outcome};
ghost use Rattle.ls_grammar.specs.Visiting.{Resolves, IsReason, AnswersWith, RefusesWith, ResolvesOrIsRefused, refusal_of};

use crate::array::{array_over, pattern, vectors_over};
use crate::level::{Level, Part};
use crate::number::{refusal, written};
use crate::refusal::{Refusal, RefusalKind, Stop};
use crate::saying::level_of;
use ls_deftype::{SubstituteFault, Template};
use ls_env::Env;
use ls_object::{Boxed, Items, Rat};
use ls_reader::{Datum, Form, Span};
use ls_spec::{DimPattern, Point, Spec, of_builtin};
use std::alloc::Global;

/// How deep a specifier may be nested.
pub const DEEPEST: u32 = 256;

/// How many specifiers and objects of MEMBER and EQL there may be in a specifier.
pub const ROOM: u64 = 262_144;

fn stopped(kind: RefusalKind, at: Span) -> Stop
    ensures { result ≡ stopped kind at }
{
    Stop::Refused(refusal(kind, at))
}

fn number_point(at: Span, number: Option<Rat>) -> Result<Point, Stop>
    ensures { Gives eql_to result (number_point at number) }
{
    match number {
        None => Err(stopped(RefusalKind::NumberTooWide, at)),
        Some(number) => Ok(Point::Number(number)),
    }
}

/// The object of MEMBER or EQL that the datum is.
fn point_of(object: &Datum) -> Result<Point, Stop>
    ensures { Gives eql_to result (eql_of object.now) }
{
    match &object.form {
        Form::Symbol(symbol) => Ok(Point::Sym(symbol.copy()?)),
        Form::Char(c) => Ok(Point::Char(*c)),
        Form::Number(literal) => number_point(object.span, written(literal)),
        _ => Err(stopped(RefusalKind::MemberObject, object.span)),
    }
}

fn resolve_object(object: &Datum, room: &mut u64) -> Result<Spec, Stop>
    ensures { Steps specifier result room.new (run_object object.now room.old) }
{
    if *room == 0 {
        return Err(stopped(RefusalKind::TooManyNodes, object.span));
    }
    *room -= 1;
    Ok(Spec::Eql(point_of(object)?))
}

fn resolve_objects(alloc: Global, objects: &[Datum], room: &mut u64) -> Result<Items<Spec>, Stop>
    ensures { Steps (map specifier) result room.new (run_all run_object objects.now room.old) }
{
    let mut specs = Items::new(alloc);
    for object in objects {
        specs.push(resolve_object(object, room)?)?;
    }
    Ok(specs)
}

#[cycle(resolve)]
fn resolve_all(
    alloc: Global,
    env: &Env,
    parts: &[Datum],
    left: u32,
    room: &mut u64,
) -> Result<Items<Spec>, Stop>
    ensures { Steps (map specifier) result room.new (run_all (outcome env.now left) parts.now room.old) }
{
    let mut specs = Items::new(alloc);
    for part in parts {
        specs.push(resolve_in(alloc, env, part, left, room)?)?;
    }
    Ok(specs)
}

#[cycle(resolve)]
fn resolve_part(
    alloc: Global,
    env: &Env,
    part: Part<'_>,
    left: u32,
    room: &mut u64,
) -> Result<Spec, Stop>
    ensures { Steps specifier result room.new (run_part (outcome env.now left) (lent part.entry) room.old) }
{
    match part {
        Part::Any => Ok(Spec::All),
        Part::Of(datum) => resolve_in(alloc, env, datum, left, room),
    }
}

#[cycle(resolve)]
fn resolve_cons(
    alloc: Global,
    env: &Env,
    car: Part<'_>,
    cdr: Part<'_>,
    left: u32,
    room: &mut u64,
) -> Result<Spec, Stop>
    ensures { Steps specifier result room.new (run_pair (outcome env.now left) (lent car.entry) (lent cdr.entry) room.old) }
{
    let first = resolve_part(alloc, env, car, left, room)?;
    let second = resolve_part(alloc, env, cdr, left, room)?;
    Ok(Spec::ConsOf(Boxed::new(alloc, first)?, Boxed::new(alloc, second)?))
}

#[cycle(resolve)]
fn resolve_array(
    alloc: Global,
    env: &Env,
    element: Part<'_>,
    simple: bool,
    dims: DimPattern,
    left: u32,
    room: &mut u64,
) -> Result<Spec, Stop>
    ensures { Steps specifier result room.new (run_level (outcome env.now left) (elements (lent element.entry) simple dims) room.old) }
{
    match element {
        Part::Any => Ok(Spec::ArrayOf {
            elem: None,
            simple,
            dims,
        }),
        Part::Of(datum) => {
            let element = resolve_in(alloc, env, datum, left, room)?;
            Ok(array_over(alloc, element, simple, dims)?)
        }
    }
}

#[cycle(resolve)]
fn resolve_at(
    alloc: Global,
    env: &Env,
    at: Span,
    level: Level<'_>,
    left: u32,
    room: &mut u64,
) -> Result<Spec, Stop>
    requires { IsExpandable level }
    ensures { Steps specifier result room.new (run_entered (outcome env.now left) at (shown level.entry) room.old) }
{
    match level {
        Level::Refused(why) => Err(Stop::Refused(why)),
        Level::Known(spec) => Ok(spec),
        Level::Named(name) => Ok(of_builtin(alloc, name)?),
        Level::Structure(name) => Ok(Spec::StructIs(name.copy()?)),
        Level::Predicate(name) => Ok(Spec::Satisfies(name.copy()?)),
        Level::Object(object) => resolve_object(object, room),
        Level::Members(objects) => Ok(Spec::Or(resolve_objects(alloc, objects, room)?)),
        Level::AllOf(parts) => Ok(Spec::And(resolve_all(alloc, env, parts, left, room)?)),
        Level::SomeOf(parts) => Ok(Spec::Or(resolve_all(alloc, env, parts, left, room)?)),
        Level::NoneOf(part) => {
            let part = resolve_in(alloc, env, part, left, room)?;
            Ok(Spec::Not(Boxed::new(alloc, part)?))
        }
        Level::ConsOf(car, cdr) => resolve_cons(alloc, env, car, cdr, left, room),
        Level::ArrayOf(element, simple, dims) => {
            let dims = pattern(alloc, dims)?;
            resolve_array(alloc, env, element, simple, dims, left, room)
        }
        Level::VectorsOver(name, simple, length) => Ok(vectors_over(alloc, name, simple, length)?),
        Level::Use(template, place, args) => resolve_use(
            alloc, env, at, template, place, args, left, room,
        ),
    }
}

/// A use of a DEFTYPE: its expansion, whose size is taken from the room, as a datum one level deeper.
#[cycle(resolve)]
#[tactic(auto, using(crate::proofs::OutcomeLemmas::use_miscounted, crate::proofs::OutcomeLemmas::use_over))]
fn resolve_use(
    alloc: Global,
    env: &Env,
    at: Span,
    template: &Template,
    place: Span,
    args: &[Datum],
    left: u32,
    room: &mut u64,
) -> Result<Spec, Stop>
    ensures { Steps specifier result room.new
        (run_entered (outcome env.now left) at (use_of (definition_of template.now) place args.now) room.old) }
{
    match template.expand(alloc, place, args, room) {
        Ok(expansion) => resolve_in(alloc, env, &expansion, left, room),
        Err(SubstituteFault::ArgumentCount) => Err(stopped(RefusalKind::ArgumentCount, place)),
        Err(SubstituteFault::TooManyNodes) => Err(stopped(RefusalKind::TooManyNodes, at)),
        Err(SubstituteFault::Memory) => Err(Stop::Memory),
    }
}

#[cycle(resolve)]
#[tactic(auto, using(crate::proofs::OutcomeLemmas::outcome_none))]
fn resolve_in(
    alloc: Global,
    env: &Env,
    datum: &Datum,
    left: u32,
    room: &mut u64,
) -> Result<Spec, Stop>
    ensures { Steps specifier result room.new (outcome env.now left datum.now room.old) }
{
    if left == 0 {
        return Err(stopped(RefusalKind::TooDeep, datum.span));
    }
    if *room == 0 {
        return Err(stopped(RefusalKind::TooManyNodes, datum.span));
    }
    *room -= 1;
    resolve_at(alloc, env, datum.span, level_of(env, datum), left - 1, room)
}

/// Each datum resolves, under each environment, or has a refusal. The body is empty, since this is a law.
pub fn each_datum_resolves_or_is_refused()
    ensures { (env : Environment) (d : Datum) → ResolvesOrIsRefused env d }
{}

/// The specifier that the datum denotes, or the first thing that is wrong with it as a specifier (4.2.3). `Memory`
/// comes where there was no memory for the specifier.
pub fn resolve(alloc: Global, env: &Env, datum: &Datum) -> Result<Spec, Stop>
    ensures ok { IfOk result (λ s. Resolves env.now datum.now (specifier s)) }
    ensures err { IfErr result (IsReason env.now datum.now) }
    ensures answers { (s : Specifier) → Resolves env.now datum.now s → AnswersWith s result }
    ensures refuses { (x : Refusal) → refusal_of env.now datum.now ≡ Some x → RefusesWith x result }
    ensures fits { IfOk result (λ s. Fits (structures_of env.now) (specifier s)) }
{
    let mut room = ROOM;
    resolve_in(alloc, env, datum, DEEPEST, &mut room)
}
