// Specifiers as trees again.

ghost use Rattle.std.specs.Prelude.{◌≡◌, ◌<◌, length, map, IfOk};
ghost use Rattle.ls_spec.specs.Meaning.{specifier};
ghost use Rattle.ls_intern.specs.Places.{at, specifiers_at, AllBelow};

use crate::node::{Id, Node};
use crate::table::Table;
use ls_object::{Boxed, Items};
use ls_spec::Spec;
use std::alloc::{AllocError, Global};

impl Table {
    /// The specifier with that number, as a tree of its own.
    #[cycle(tree)]
    pub fn tree(&self, id: Id) -> Result<Spec, AllocError>
        requires { id < length self.now }
        ensures { IfOk result (λ spec. specifier spec ≡ at self.now id) }
    {
        let alloc = self.allocator();
        match self.node(id) {
            Node::All => Ok(Spec::All),
            Node::Nothing => Ok(Spec::Nothing),
            Node::And(ids) => Ok(Spec::And(self.trees(ids.as_slice())?)),
            Node::Or(ids) => Ok(Spec::Or(self.trees(ids.as_slice())?)),
            Node::Not(part) => Ok(Spec::Not(Boxed::new(alloc, self.tree(*part)?)?)),
            Node::Eql(point) => Ok(Spec::Eql(point.copy()?)),
            Node::Range { kind, lo, hi } => Ok(Spec::Range {
                kind: *kind,
                lo: *lo,
                hi: *hi,
            }),
            Node::Chars(class) => Ok(Spec::Chars(*class)),
            Node::Symbols(class) => Ok(Spec::Symbols(*class)),
            Node::Kind(kind) => Ok(Spec::Kind(*kind)),
            Node::StructIs(name) => Ok(Spec::StructIs(name.copy()?)),
            Node::StructAny => Ok(Spec::StructAny),
            Node::ArrayOf { elem, simple, dims } => match elem {
                None => Ok(Spec::ArrayOf {
                    elem: None,
                    simple: *simple,
                    dims: dims.copy(alloc)?,
                }),
                Some(elem) => Ok(Spec::ArrayOf {
                    elem: Some(Boxed::new(alloc, self.tree(*elem)?)?),
                    simple: *simple,
                    dims: dims.copy(alloc)?,
                }),
            },
            Node::StringOf { simple, dim } => Ok(Spec::StringOf {
                simple: *simple,
                dim: *dim,
            }),
            Node::ConsOf(car, cdr) => {
                let car = self.tree(*car)?;
                let cdr = self.tree(*cdr)?;
                Ok(Spec::ConsOf(Boxed::new(alloc, car)?, Boxed::new(alloc, cdr)?))
            }
            Node::Satisfies(predicate) => Ok(Spec::Satisfies(predicate.copy()?)),
        }
    }

    /// The specifiers with these numbers, in order.
    #[cycle(tree)]
    fn trees(&self, ids: &[Id]) -> Result<Items<Spec>, AllocError>
        requires { AllBelow (length self.now) ids.now }
        ensures { IfOk result (λ specs. map specifier specs ≡ specifiers_at self.now ids.now) }
    {
        let mut specs = Items::new(self.allocator());
        for id in ids {
            specs.push(self.tree(*id)?)?;
        }
        Ok(specs)
    }
}
