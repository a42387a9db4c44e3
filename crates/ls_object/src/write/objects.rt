ghost use Rattle.std.specs.Prelude.{◌≡◌, ◌++◌, ◌↔◌, OnOk, OnErr, IsTrue, codes};
ghost use Rattle.ls_object.specs.ObjectText.{object_text, shape_text, rest_text, symbol_text, kind_text};
ghost use Rattle.ls_object.specs.Universe.{IsPlain};
ghost use Rattle.ls_object.specs.Writing.{AddsFrontOf, IsAtom, IsAtomShape};
ghost use Rattle.ls_object.specs.Meaning.{lisp_object, lisp_shape};

use crate::kind::Kind;
use crate::object::{Object, Shape};
use crate::symbol::Symbol;
use crate::text::Text;
use crate::write::arrays::write_array;
use crate::write::characters::write_character;
use std::alloc::AllocError;

impl Object {
    /// Appends the text of a plain object. On an error a front part of the text may stand in `out`.
    pub fn write_text(&self, out: &mut Text) -> Result<(), AllocError>
        requires { IsPlain (lisp_object self.now) }
        ensures ok { OnOk result (out.new ≡ out.old ++ object_text (lisp_object self.now)) }
        ensures err { OnErr result (AddsFrontOf (object_text (lisp_object self.now)) out.old out.new) }
    {
        self.write(out)
    }

    /// Whether no node of it has a mark.
    pub fn is_plain(&self) -> bool
        ensures { IsTrue result ↔ IsPlain (lisp_object self.now) }
    {
        if !self.marks.is_empty() {
            return false;
        }
        match &self.shape {
            Shape::Pair(car, cdr) => car.get().is_plain() && cdr.get().is_plain(),
            _ => true,
        }
    }

    /// Appends the text of the object without its marks.
    #[cycle(write)]
    fn write(&self, out: &mut Text) -> Result<(), AllocError>
        ensures ok { OnOk result (out.new ≡ out.old ++ object_text (lisp_object self.now)) }
        ensures err { OnErr result (AddsFrontOf (object_text (lisp_object self.now)) out.old out.new) }
    {
        match &self.shape {
            Shape::Pair(car, cdr) => {
                out.push_ascii("(")?;
                car.get().write(out)?;
                cdr.get().write_rest(out)
            }
            atom => write_atom(atom, out),
        }
    }

    /// Appends what stands behind a car whose cdr this is (22.1.3.5).
    #[cycle(write)]
    fn write_rest(&self, out: &mut Text) -> Result<(), AllocError>
        ensures ok { OnOk result (out.new ≡ out.old ++ rest_text (lisp_object self.now)) }
        ensures err { OnErr result (AddsFrontOf (rest_text (lisp_object self.now)) out.old out.new) }
    {
        let mut rest = self;
        while let Shape::Pair(car, cdr) = &rest.shape {
            out.push_ascii(" ")?;
            car.get().write(out)?;
            rest = cdr.get();
        }
        rest.write_end(out)
    }

    /// Appends the end of a list whose last cdr this is.
    fn write_end(&self, out: &mut Text) -> Result<(), AllocError>
        requires { IsAtom (lisp_object self.now) }
        ensures ok { OnOk result (out.new ≡ out.old ++ rest_text (lisp_object self.now)) }
        ensures err { OnErr result (AddsFrontOf (rest_text (lisp_object self.now)) out.old out.new) }
    {
        if let Shape::Sym(s) = &self.shape {
            if s.is_nil() {
                return out.push_ascii(")");
            }
        }
        write_dotted(&self.shape, out)
    }
}

/// Appends a dot, an atom and a closing bracket.
fn write_dotted(atom: &Shape, out: &mut Text) -> Result<(), AllocError>
    requires { IsAtomShape (lisp_shape atom.now) }
    ensures ok { OnOk result (out.new ≡ out.old ++ (codes " . " ++ shape_text (lisp_shape atom.now) ++ codes ")")) }
    ensures err { OnErr result (AddsFrontOf (codes " . " ++ shape_text (lisp_shape atom.now) ++ codes ")") out.old out.new) }
{
    out.push_ascii(" . ")?;
    write_atom(atom, out)?;
    out.push_ascii(")")
}

/// Appends the text of an object that is no cons, by its shape.
fn write_atom(atom: &Shape, out: &mut Text) -> Result<(), AllocError>
    requires { IsAtomShape (lisp_shape atom.now) }
    ensures ok { OnOk result (out.new ≡ out.old ++ shape_text (lisp_shape atom.now)) }
    ensures err { OnErr result (AddsFrontOf (shape_text (lisp_shape atom.now)) out.old out.new) }
{
    match atom {
        Shape::Number(r) => r.write_text(out),
        Shape::Char(c) => write_character(*c, out),
        Shape::Sym(s) => s.write_text(out),
        Shape::Pair(_, _) => unreachable!(),
        Shape::Array { elem, simple, dims } => write_array(elem, *simple, dims.as_slice(), out),
        Shape::Structure(s) => write_structure(s, out),
        Shape::Opaque(kind) => write_opaque(kind, out),
    }
}

/// Appends a structure.
fn write_structure(name: &Symbol, out: &mut Text) -> Result<(), AllocError>
    ensures ok { OnOk result (out.new ≡ out.old ++ (codes "#<STRUCTURE " ++ symbol_text name.now ++ codes ">")) }
    ensures err { OnErr result (AddsFrontOf (codes "#<STRUCTURE " ++ symbol_text name.now ++ codes ">") out.old out.new) }
{
    out.push_ascii("#<STRUCTURE ")?;
    name.write_text(out)?;
    out.push_ascii(">")
}

/// Appends an object of one of the other kinds.
fn write_opaque(kind: &Kind, out: &mut Text) -> Result<(), AllocError>
    ensures ok { OnOk result (out.new ≡ out.old ++ (codes "#<" ++ kind_text kind.now ++ codes ">")) }
    ensures err { OnErr result (AddsFrontOf (codes "#<" ++ kind_text kind.now ++ codes ">") out.old out.new) }
{
    out.push_ascii("#<")?;
    out.push_ascii(kind.text())?;
    out.push_ascii(">")
}
