// The lower and the upper approximation of a specifier, and whether they differ.

ghost use Rattle.std.specs.Prelude.{◌≡◌, IfOk};
ghost use Rattle.ls_spec.specs.Meaning.{specifier, specifiers};
ghost use Rattle.ls_spec.specs.Approximation as approximation;

use crate::spec::Spec;
use ls_object::{Boxed, Items};
use std::alloc::{AllocError, Global};

impl Spec {
    /// The lower approximation: each predicate outside element types becomes NIL, below a NOT it becomes T, below
    /// two NIL again, and so on. What belongs to it belongs to the specifier whatever its predicates mean. It takes
    /// time linear in the size of the specifier.
    pub fn low(&self, alloc: Global) -> Result<Spec, AllocError>
        ensures { IfOk result (λ s. specifier s ≡ approximation.low (specifier self.now)) }
    {
        self.bounded(false, alloc)
    }

    /// The upper approximation: each predicate outside element types becomes T, below a NOT it becomes NIL, below
    /// two T again, and so on. What belongs to the specifier under some meaning of its predicates belongs to it. It
    /// takes time linear in the size of the specifier.
    pub fn high(&self, alloc: Global) -> Result<Spec, AllocError>
        ensures { IfOk result (λ s. specifier s ≡ approximation.high (specifier self.now)) }
    {
        self.bounded(true, alloc)
    }

    /// The upper approximation or the lower one.
    #[cycle(bounded)]
    fn bounded(&self, upper: bool, alloc: Global) -> Result<Spec, AllocError>
        ensures { IfOk result (λ s. specifier s ≡ approximation.bounded upper (specifier self.now)) }
    {
        match self {
            Spec::And(parts) => Ok(Spec::And(bounded_all(parts.as_slice(), upper, alloc)?)),
            Spec::Or(parts) => Ok(Spec::Or(bounded_all(parts.as_slice(), upper, alloc)?)),
            Spec::Not(part) => {
                let part = part.get().bounded(!upper, alloc)?;
                Ok(Spec::Not(Boxed::new(alloc, part)?))
            }
            Spec::ConsOf(car, cdr) => {
                let car = car.get().bounded(upper, alloc)?;
                let cdr = cdr.get().bounded(upper, alloc)?;
                Ok(Spec::ConsOf(Boxed::new(alloc, car)?, Boxed::new(alloc, cdr)?))
            }
            Spec::Satisfies(_) => Ok(if upper { Spec::All } else { Spec::Nothing }),
            Spec::All => Ok(Spec::All),
            Spec::Nothing => Ok(Spec::Nothing),
            Spec::Eql(_) => self.copy(alloc),
            Spec::Range {
                kind: _,
                lo: _,
                hi: _,
            } => self.copy(alloc),
            Spec::Chars(_) => self.copy(alloc),
            Spec::Symbols(_) => self.copy(alloc),
            Spec::Kind(_) => self.copy(alloc),
            Spec::StructIs(_) => self.copy(alloc),
            Spec::StructAny => self.copy(alloc),
            Spec::ArrayOf {
                elem,
                simple: _,
                dims: _,
            } => match elem {
                None => self.copy(alloc),
                Some(_) => self.copy(alloc),
            },
            Spec::StringOf { simple: _, dim: _ } => self.copy(alloc),
        }
    }

    /// Whether a predicate stands in it outside element types. Without one both approximations are the specifier
    /// itself. It takes no memory.
    #[cycle(free)]
    pub fn has_free_predicate(&self) -> bool
        ensures { result ≡ approximation.has_free_predicate (specifier self.now) }
    {
        match self {
            Spec::And(parts) => some_has_free_predicate(parts.as_slice()),
            Spec::Or(parts) => some_has_free_predicate(parts.as_slice()),
            Spec::Not(part) => part.get().has_free_predicate(),
            Spec::ConsOf(car, cdr) => {
                car.get().has_free_predicate() || cdr.get().has_free_predicate()
            }
            Spec::Satisfies(_) => true,
            Spec::All => false,
            Spec::Nothing => false,
            Spec::Eql(_) => false,
            Spec::Range {
                kind: _,
                lo: _,
                hi: _,
            } => false,
            Spec::Chars(_) => false,
            Spec::Symbols(_) => false,
            Spec::Kind(_) => false,
            Spec::StructIs(_) => false,
            Spec::StructAny => false,
            Spec::ArrayOf {
                elem,
                simple: _,
                dims: _,
            } => match elem {
                None => false,
                Some(_) => false,
            },
            Spec::StringOf { simple: _, dim: _ } => false,
        }
    }
}

/// The approximations of each of the specifiers.
#[cycle(bounded)]
fn bounded_all(specs: &[Spec], upper: bool, alloc: Global) -> Result<Items<Spec>, AllocError>
    ensures { IfOk result (λ ss. specifiers ss ≡ approximation.bounded_all upper (specifiers specs.now)) }
{
    let mut bounded = Items::new(alloc);
    for spec in specs {
        bounded.push(spec.bounded(upper, alloc)?)?;
    }
    Ok(bounded)
}

/// Whether some of the specifiers has such a predicate.
#[cycle(free)]
fn some_has_free_predicate(specs: &[Spec]) -> bool
    ensures { result ≡ approximation.some_has_free_predicate (specifiers specs.now) }
{
    for spec in specs {
        if spec.has_free_predicate() {
            return true;
        }
    }
    false
}
