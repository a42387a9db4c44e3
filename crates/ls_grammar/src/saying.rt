// What a datum says as a specifier, by its head.

ghost use Rattle.std.specs.Prelude.{◌≡◌, [], ◌∷◌};
ghost use Rattle.ls_object.specs.declared.symbol.Symbol.{Symbol};
ghost use Rattle.ls_tables.specs.Builtins.{builtin_of};
ghost use Rattle.ls_env.specs.Naming.{quote_symbol, status_of};
ghost use Rattle.ls_grammar.specs.BuiltinLevels.{built_atom, built_list};
ghost use Rattle.ls_grammar.specs.Saying as spec;
ghost use Rattle.ls_grammar.specs.steps.Answering.{shown, IsExpandable};

use crate::level::{
    Level, array_level, cons_level, eql_level, mod_level, named_level, not_level, range_level,
    refused, satisfies_level, signed_level, starred_level, string_level, unsigned_level,
    vector_level,
};
use crate::refusal::RefusalKind;
use ls_env::{Env, NameStatus};
use ls_object::Symbol;
use ls_reader::{Datum, Form, Span};
use ls_spec::RangeKind;
use ls_tables::{Builtin, builtin};
use std::slice;

/// A list with a built-in name as its head.
fn built_list(at: Span, args: &[Datum], name: Builtin) -> Level<'_>
    ensures value { shown result ≡ built_list at args.now name }
    ensures expandable { IsExpandable result }
{
    match name {
        Builtin::And => Level::AllOf(args),
        Builtin::Or => Level::SomeOf(args),
        Builtin::Not => not_level(at, args),
        Builtin::Member => Level::Members(args),
        Builtin::Eql => eql_level(at, args),
        Builtin::Cons => cons_level(at, args),
        Builtin::Integer => range_level(RangeKind::Integer, at, args),
        Builtin::Rational => range_level(RangeKind::Rational, at, args),
        Builtin::Mod => mod_level(at, args),
        Builtin::SignedByte => signed_level(at, args),
        Builtin::UnsignedByte => unsigned_level(at, args),
        Builtin::Float
        | Builtin::ShortFloat
        | Builtin::SingleFloat
        | Builtin::LongFloat
        | Builtin::DoubleFloat
        | Builtin::Real => starred_level(RefusalKind::FloatRange, 2, name, at, args),
        Builtin::Complex => starred_level(RefusalKind::ComplexPart, 1, name, at, args),
        Builtin::Function | Builtin::Values => refused(RefusalKind::FunctionList, at),
        Builtin::Array => array_level(false, at, args),
        Builtin::SimpleArray => array_level(true, at, args),
        Builtin::Vector => vector_level(at, args),
        Builtin::SimpleVector => named_level(Builtin::T, true, at, args),
        Builtin::BitVector => named_level(Builtin::Bit, false, at, args),
        Builtin::SimpleBitVector => named_level(Builtin::Bit, true, at, args),
        Builtin::BaseString => named_level(Builtin::BaseChar, false, at, args),
        Builtin::SimpleBaseString => named_level(Builtin::BaseChar, true, at, args),
        Builtin::String => string_level(false, at, args),
        Builtin::SimpleString => string_level(true, at, args),
        Builtin::Satisfies => satisfies_level(at, args),
        _ => refused(RefusalKind::BadArgument, at),
    }
}

/// A built-in name as an atom.
fn built_atom(at: Span, name: Builtin) -> Level<'static>
    ensures value { shown result ≡ built_atom at name }
    ensures expandable { IsExpandable result }
{
    match name {
        Builtin::Star => refused(RefusalKind::StarNotAllowed, at),
        Builtin::Values => refused(RefusalKind::FunctionList, at),
        Builtin::And
        | Builtin::Or
        | Builtin::Not
        | Builtin::Member
        | Builtin::Eql
        | Builtin::Satisfies
        | Builtin::Mod => refused(RefusalKind::BadArgument, at),
        _ => Level::Named(name),
    }
}

/// A name of which the file says this.
fn level_by<'a>(env: &'a Env, status: NameStatus, at: Span, args: &'a [Datum]) -> Level<'a>
    requires { (name : Symbol) × (status_of env.now name ≡ status) }
    ensures value { shown result ≡ spec.level_by env.entry.now status at args.entry.now }
    ensures expandable { IsExpandable result }
{
    match status {
        NameStatus::Unknown => refused(RefusalKind::UnknownType, at),
        NameStatus::Deftype(number) => Level::Use(env.template(number), at, args),
        NameStatus::Structure => refused(RefusalKind::BadArgument, at),
        NameStatus::Typed => refused(RefusalKind::UnknownType, at),
        NameStatus::Class => refused(RefusalKind::ClassType, at),
        NameStatus::Twice => refused(RefusalKind::NameTwice, at),
        NameStatus::CodeBody => refused(RefusalKind::CodeBody, at),
        NameStatus::BadDefinition => refused(RefusalKind::BadDefinition, at),
        NameStatus::Recursive => refused(RefusalKind::RecursiveType, at),
    }
}

/// The list that `'x` stands for, of QUOTE and x.
fn quote_level<'a>(env: &'a Env, at: Span, quoted: &'a Datum) -> Level<'a>
    ensures value { shown result ≡ spec.own_level env.entry.now at quote_symbol (quoted.entry.now ∷ []) }
    ensures expandable { IsExpandable result }
{
    level_by(env, env.status_of_quote(), at, slice::from_ref(quoted))
}

/// A name that is not built in, as an atom.
fn own_atom<'a>(env: &'a Env, at: Span, symbol: &'a Symbol) -> Level<'a>
    ensures value { shown result ≡ spec.atom_by env.entry.now symbol.entry.now (status_of env.entry.now symbol.entry.now) at }
    ensures expandable { IsExpandable result }
{
    match env.status(symbol) {
        NameStatus::Structure => Level::Structure(symbol),
        status => level_by(env, status, at, &[]),
    }
}

fn atom_level<'a>(env: &'a Env, at: Span, symbol: &'a Symbol) -> Level<'a>
    ensures value { shown result ≡ spec.atom_level env.entry.now at symbol.entry.now (builtin_of symbol.entry.now) }
    ensures expandable { IsExpandable result }
{
    match builtin(symbol) {
        None => own_atom(env, at, symbol),
        Some(name) => built_atom(at, name),
    }
}

fn list_level<'a>(env: &'a Env, at: Span, symbol: &Symbol, args: &'a [Datum]) -> Level<'a>
    ensures value { shown result ≡ spec.list_level env.entry.now at symbol.now args.entry.now (builtin_of symbol.now) }
    ensures expandable { IsExpandable result }
{
    match builtin(symbol) {
        None => level_by(env, env.status(symbol), at, args),
        Some(name) => built_list(at, args, name),
    }
}

fn items_level<'a>(env: &'a Env, at: Span, items: &'a [Datum]) -> Level<'a>
    ensures value { shown result ≡ spec.items_level env.entry.now at items.entry.now }
    ensures expandable { IsExpandable result }
{
    match items {
        [head, args @ ..] => match &head.form {
            Form::Symbol(symbol) => list_level(env, at, symbol, args),
            _ => refused(RefusalKind::BadArgument, at),
        },
        [] => refused(RefusalKind::BadArgument, at),
    }
}

/// What the datum says as a specifier, one level deep.
pub(crate) fn level_of<'a>(env: &'a Env, datum: &'a Datum) -> Level<'a>
    ensures value { shown result ≡ spec.level env.entry.now datum.entry.now }
    ensures expandable { IsExpandable result }
{
    let at = datum.span;
    match &datum.form {
        Form::Symbol(symbol) => atom_level(env, at, symbol),
        Form::List(items) => items_level(env, at, items.as_slice()),
        Form::Quote(quoted) => quote_level(env, at, quoted.get()),
        _ => refused(RefusalKind::BadArgument, at),
    }
}
