// The characters.

ghost use Rattle.std.specs.Prelude.{◌≡◌, ◌≤◌, ◌<◌, ◌+◌, [], ◌∷◌, ◌++◌, true, map, fold, length, nat_eq, OnOk, MatchOption};
ghost use Rattle.std.specs.Char.{IsScalar};
ghost use Rattle.std.specs.List.{AllByRecursion};
ghost use Rattle.std.specs.Option.{option_to_list};
ghost use Rattle.ls_object.specs.Universe.{node, character};
ghost use Rattle.ls_object.specs.Meaning.{lisp_object};
ghost use Rattle.ls_spec.specs.Meaning.{specifier};
ghost use Rattle.ls_points.specs.Classes.{IsCharacter};
ghost use Rattle.ls_points.specs.Members as members;
ghost use Rattle.ls_points.specs.steps.Characters.{with_characters, is_just_in, IsUnnamed, AreNamedBetween};

use crate::object::push_unmarked;
use indexmap::IndexSet;
use ls_object::{Items, Object, Shape};
use ls_spec::{CharClass, Point, Regions, Spec, belongs_unmarked};
use std::alloc::{AllocError, Global};

/// What a code of BASE-CHAR stays below.
const BASE_END: u32 = 0x80;

/// What a code stays below.
const CODE_END: u32 = 0x11_0000;

/// The characters.
pub struct CharRegions;

impl Regions for CharRegions {
    type Atom = Spec;

    ghost IsOver = { λ _ structures. members.IsOverEvery structures };

    ghost IsOfClass = { λ _ o. IsCharacter o };

    ghost IsFit = { λ _ a. members.IsFit a };

    ghost IsIn = { members.IsIn };

    ghost limit = { members.character_limit };

    fn covers(&self, object: &Object) -> bool {
        match object.shape {
            Shape::Char(_) => true,
            _ => false,
        }
    }

    fn holds(&self, atom: &Spec, object: &Object) -> bool {
        belongs_unmarked(atom, &object.shape)
    }

    /// The characters that atoms name, and one of each class that none names.
    fn reps(&self, alloc: Global, atoms: &Items<Spec>) -> Result<Items<Object>, AllocError> {
        let mut named = IndexSet::new(alloc);
        add_named(atoms.as_slice(), &mut named)?;
        let mut out = Items::new(alloc);
        push_chars(alloc, named.as_slice(), &mut out)?;
        let standard = first_unnamed(&named, CharClass::Standard, 0, BASE_END);
        let base = first_unnamed(&named, CharClass::Base, 0, BASE_END);
        let other = first_unnamed(&named, CharClass::Any, BASE_END, CODE_END);
        push_found(alloc, standard, &mut out)?;
        push_found(alloc, base, &mut out)?;
        push_found(alloc, other, &mut out)?;
        Ok(out)
    }
}

/// Adds the characters that the atoms name to a set.
fn add_named(atoms: &[Spec], named: &mut IndexSet<char>) -> Result<(), AllocError>
    ensures { OnOk result (named.new.keys ≡ fold with_characters named.old.keys atoms.now) }
{
    for atom in atoms {
        add_named_by(atom, named)?;
    }
    Ok(())
}

/// Adds the character that an atom names, if it names one.
fn add_named_by(atom: &Spec, named: &mut IndexSet<char>) -> Result<(), AllocError>
    ensures { OnOk result (named.new.keys ≡ with_characters named.old.keys atom.now) }
{
    if let Spec::Eql(Point::Char(c)) = atom {
        named.insert(*c)?;
    }
    Ok(())
}

/// Appends the characters, as objects.
fn push_chars(alloc: Global, chars: &[char], out: &mut Items<Object>) -> Result<(), AllocError>
    ensures objects { OnOk result (map lisp_object out.new ≡ map lisp_object out.old ++ map (λ c. node [] (character c)) chars.now) }
    ensures scalars { OnOk result (AllByRecursion IsScalar chars.now) }
{
    for c in chars {
        push_unmarked(alloc, Shape::Char(*c), out)?;
    }
    Ok(())
}

fn is_standard(c: char) -> bool
    ensures { result ≡ is_just_in CharClass.Standard c }
{
    c == '\n' || (' ' <= c && c <= '~')
}

/// Whether the character is in the class and in no narrower one.
fn is_just_in(class: CharClass, c: char) -> bool
    ensures { result ≡ is_just_in class c }
{
    match class {
        CharClass::Standard => is_standard(c),
        CharClass::Base => c < '\u{80}' && !is_standard(c),
        CharClass::Any => !(c < '\u{80}'),
    }
}

/// The first character of the class, of no narrower one and not among the named, with a code from `start` to
/// below `end`; `None` where there is none.
fn first_unnamed(named: &IndexSet<char>, class: CharClass, start: u32, end: u32) -> Option<char>
    ensures { MatchOption result (AreNamedBetween named.now.keys class start end) (IsUnnamed named.now.keys class) }
{
    for code in start..end {
        if let Some(c) = char::from_u32(code) {
            if is_just_in(class, c) && !named.contains(&c) {
                return Some(c);
            }
        }
    }
    None
}

/// Appends the character as an object, if there is one.
fn push_found(alloc: Global, found: Option<char>, out: &mut Items<Object>) -> Result<(), AllocError>
    ensures { OnOk result (map lisp_object out.new ≡ map lisp_object out.old ++ map (λ c. node [] (character c)) (option_to_list found)) }
{
    if let Some(c) = found {
        push_unmarked(alloc, Shape::Char(c), out)?;
    }
    Ok(())
}
