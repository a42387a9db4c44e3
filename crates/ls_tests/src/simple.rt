//! Specifiers that ask about one object alone.

ghost use Rattle.std.specs.Prelude.{IsTrue};
ghost use Rattle.ls_spec.specs.Meaning.{specifier, specifiers};
ghost use Rattle.ls_spec.specs.SelfContained.{IsSelfContained, AreSelfContained};

use ls_spec::Spec;

/// Whether it has no element type and no structure name.
#[cycle(simple)]
pub(crate) fn is_simple(spec: &Spec) -> bool
    ensures { IsTrue result → IsSelfContained (specifier spec.now) }
{
    match spec {
        Spec::And(parts) => are_simple(parts.as_slice()),
        Spec::Or(parts) => are_simple(parts.as_slice()),
        Spec::Not(part) => is_simple(part.get()),
        Spec::ConsOf(car, cdr) => is_simple(car.get()) && is_simple(cdr.get()),
        Spec::ArrayOf {
            elem,
            simple: _,
            dims: _,
        } => match elem {
            None => true,
            Some(_) => false,
        },
        Spec::StructIs(_) => false,
        Spec::StringOf { simple: _, dim: _ } => true,
        Spec::Satisfies(_) => true,
        Spec::All => true,
        Spec::Nothing => true,
        Spec::Eql(_) => true,
        Spec::Range {
            kind: _,
            lo: _,
            hi: _,
        } => true,
        Spec::Chars(_) => true,
        Spec::Symbols(_) => true,
        Spec::Kind(_) => true,
        Spec::StructAny => true,
    }
}

#[cycle(simple)]
fn are_simple(parts: &[Spec]) -> bool
    ensures { IsTrue result → AreSelfContained (specifiers parts.now) }
{
    for part in parts {
        if !is_simple(part) {
            return false;
        }
    }
    true
}
