// Classes of objects at which no atom of a list can hold, marks left out. One row stands for all of such a class, so that no objects
// need be made that stand for it and none be tested.

ghost use Rattle.std.specs.Prelude.{◌≡◌, ◌≤◌, ◌+◌, [], true, map, length, IfOk, OnOk};
ghost use Rattle.ls_object.specs.declared.kind.Kind.TheVariants.{OtherStructure};
ghost use Rattle.ls_object.specs.Universe.{node, Structures};
ghost use Rattle.ls_object.specs.Meaning.{lisp_shape};
ghost use Rattle.ls_spec.specs.Meaning.{specifier};
ghost use Rattle.ls_spec.specs.Truth.{Learnt, same_kind};
ghost use Rattle.ls_cells.specs.Cells.{AddsRows};
ghost use Rattle.ls_cells.specs.Rows.{origin_object, AreLong};
ghost use Rattle.ls_cells.specs.steps.Idle.{same_class, class_of_point, may_hold, is_idle, IsOf, some_shape};

use crate::origin::Origin;
use crate::rows::{Row, Rows};
use crate::signs::Signs;
use ls_memo::Steps;
use ls_object::{Code, Dims, Items, Kind, Object, Rat, Shape, Symbol};
use ls_spec::{Point, Spec};
use std::alloc::{AllocError, Global};
use std::rc::Rc;
use std::sync::ledger::Ledger;

/// A class of objects, by their shape. Conses have none: a cons has its row from those of its car and its cdr.
#[derive(Clone, Copy, Debug)]
pub(crate) enum Class {
    Numbers,
    Characters,
    Symbols,
    Opaques,
    Structs,
    Arrays,
}

/// Whether the two are one class.
fn is_same(a: Class, b: Class) -> bool
    ensures { result ≡ same_class a b }
{
    a as u8 == b as u8
}

/// The class of an object that EQL names.
fn class_of_point(point: &Point) -> Class
    ensures { result ≡ class_of_point point.now }
{
    match point {
        Point::Number(_) => Class::Numbers,
        Point::Char(_) => Class::Characters,
        Point::Sym(_) => Class::Symbols,
    }
}

/// Whether it is the kind of the structures whose types the file doesn't name.
fn is_other_structure(kind: Kind) -> bool
    ensures { result ≡ same_kind OtherStructure kind }
{
    Kind::OtherStructure as u8 == kind as u8
}

/// Whether the atom can hold at an object of the class without marks of its own, by its variant. Where the variant doesn't tell, it can.
fn may_hold(class: Class, atom: &Spec) -> bool
    ensures { result ≡ may_hold class (specifier atom.now) }
{
    match atom {
        Spec::Eql(point) => is_same(class, class_of_point(point)),
        Spec::Range {
            kind: _,
            lo: _,
            hi: _,
        } => is_same(class, Class::Numbers),
        Spec::Chars(_) => is_same(class, Class::Characters),
        Spec::Symbols(_) => is_same(class, Class::Symbols),
        // The object that stands for an idle class of structures is of the other structures.
        Spec::Kind(kind) => is_same(class, Class::Opaques) || is_other_structure(*kind),
        Spec::StructIs(_) => is_same(class, Class::Structs),
        Spec::StructAny => is_same(class, Class::Opaques) || is_same(class, Class::Structs),
        Spec::ArrayOf {
            elem,
            simple: _,
            dims: _,
        } => match elem {
            None => is_same(class, Class::Arrays),
            Some(_) => is_same(class, Class::Arrays),
        },
        Spec::StringOf { simple: _, dim: _ } => is_same(class, Class::Arrays),
        Spec::ConsOf(_, _) => false,
        Spec::Satisfies(_) => false,
        Spec::Nothing => false,
        Spec::All => true,
        Spec::And(_) => true,
        Spec::Or(_) => true,
        Spec::Not(_) => true,
    }
}

/// Whether none of the atoms can hold at such an object. It takes one look at each, and no memory.
pub(crate) fn is_idle(class: Class, atoms: &[Spec]) -> bool
    ensures { result ≡ is_idle class atoms.now }
{
    for atom in atoms {
        if may_hold(class, atom) {
            return false;
        }
    }
    true
}

/// What the object of the row of an idle class is.
fn some_shape(alloc: Global, class: Class) -> Result<Shape, AllocError>
    ensures { IfOk result (λ shape. lisp_shape shape ≡ some_shape class) }
{
    match class {
        Class::Numbers => Ok(Shape::Number(Rat::integer(1))),
        Class::Characters => Ok(Shape::Char('\u{80}')),
        Class::Symbols => Ok(Shape::Sym(Symbol::nil(alloc)?)),
        Class::Opaques => Ok(Shape::Opaque(Kind::SingleFloat)),
        Class::Structs => Ok(Shape::Opaque(Kind::OtherStructure)),
        Class::Arrays => Ok(Shape::Array {
            elem: Code::ALL,
            simple: true,
            dims: Dims::new(alloc),
        }),
    }
}

/// What the row of an idle class is made of.
fn some_origin(alloc: Global, class: Class) -> Result<Rc<Origin>, AllocError>
    ensures { IfOk result (λ r. origin_object r.value ≡ node [] (some_shape class)) }
{
    let shape = some_shape(alloc, class)?;
    let marks = Items::new(alloc);
    Origin::of_object(alloc, Object { marks, shape })
}

/// Adds the row of an idle class, of which no atom holds. It makes at most one step, and takes no memory for what the
/// row is made of where there is such a row.
pub(crate) fn push_idle<L: Ledger>(
    alloc: Global,
    class: Class,
    atoms: &Items<Spec>,
    rows: &mut Rows,
    steps: &mut Steps<L>,
) -> Result<(), AllocError>
    requires { is_idle class atoms.now ≡ true }
    ensures rises { steps.old ≤ steps.new }
    ensures most { steps.new ≤ steps.old + 1 }
    ensures fewer { length rows.new + steps.old ≤ length rows.old + steps.new }
    ensures long { AreLong (length atoms.now) rows.old → AreLong (length atoms.now) rows.new }
    ensures rows { OnOk result ((structures : Structures) (learnt : Learnt)
        → AddsRows structures learnt (map specifier atoms.now) (IsOf class) rows.old rows.new) }
{
    let signs = Signs::interval(alloc, atoms.len(), 0, 0)?;
    if let Some(_) = rows.find(&signs) {
        return Ok(());
    }
    let origin = some_origin(alloc, class)?;
    rows.add(Row { signs, origin }, steps)?;
    Ok(())
}
