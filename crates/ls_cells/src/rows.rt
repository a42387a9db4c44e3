ghost use Rattle.std.specs.Prelude.{true, false, ◌≡◌, ◌<◌, ◌+◌, ◌++◌, [], ◌∷◌, length, Contains, MatchOption, MatchBool, IfOk, OnOk, OnErr, IfSome, slice_get, Some, if◌then◌else◌};
ghost use Rattle.ls_object.specs.Meaning.{lisp_object};
ghost use Rattle.ls_object.specs.Universe.{IsPlain};
ghost use Rattle.ls_cells.specs.Rows.{signs_of, origin_object, AreDifferent, HasKeys, HasKeysWith};

use crate::origin::Origin;
use crate::signs::Signs;
use indexmap::IndexSet;
use ls_memo::Steps;
use ls_object::Object;
use std::alloc::{AllocError, Global};
use std::marker::Model;
use std::rc::Rc;
use std::sync::ledger::Ledger;

/// The truth value of each atom of a list, and what an object that has them is made of.
#[derive(Drop)]
pub struct Row {
    pub signs: Signs,
    pub origin: Rc<Origin>,
}

/// From how many rows on their truth values are kept for a look-up. Fewer are looked through one by one, which takes
/// less time than a hash, and no memory.
const MANY: usize = 32;

/// Rows with different truth values, in the order in which they came. Each is found by its truth values. A
/// contract sees the list of the rows.
#[derive(Drop)]
pub struct Rows {
    rows: Vec<Row>,
    /// The truth values of the rows, where these are many.
    keys: IndexSet<Signs>,
}

impl Model for Rows {
    ghost use Rattle.std.specs.Prelude.{List};
    ghost use Rattle.std.specs.Coded.{codes};
    ghost use Rattle.ls_cells.specs.declared.rows.Row.{Row};
    ghost use Rattle.ls_cells.specs.contracts.origin.Origin as origin;

    ghost Value = { List Row };

    ghost coded = { Prim.hlevel (codes, origin.the_row.coded) };

    ghost use Rattle.ls_cells.specs.Rows.{Kept};

    ghost view = { λ r. r.rows.items };

    ghost invariant = { λ r. Kept r.rows.items r.keys };
}

impl Rows {
    /// No rows.
    pub fn new(alloc: Global) -> Rows
        ensures { result ≡ [] }
    {
        Rows {
            rows: Vec::new(alloc),
            keys: IndexSet::new(alloc),
        }
    }

    /// How many rows there are. No two have the same truth values.
    pub fn len(&self) -> usize
        ensures len { result ≡ length self.now }
        ensures different { AreDifferent self.now }
    {
        self.rows.len()
    }

    /// The row at a place. What its object is made of has no marks.
    pub fn row(&self, i: usize) -> &Row
        requires { i < length self.now }
        ensures row { slice_get self.now i ≡ Some result.now }
        ensures plain { IsPlain (origin_object result.now.origin.value) }
    {
        &self.rows[i]
    }

    /// The place of the row with these truth values. None exactly where there is no such row.
    pub fn find(&self, signs: &Signs) -> Option<usize>
        ensures { MatchOption result
            (¬ Contains (signs_of self.now) signs.now)
            (λ i. slice_get (signs_of self.now) i ≡ Some signs.now) }
    {
        if self.rows.len() < MANY {
            return place_of(self.rows.as_slice(), signs);
        }
        self.keys.get_index_of(signs)
    }

    /// Adds the row at the end, unless there is one with its truth values; whether it was added. It makes one
    /// step. An error comes for want of memory, and leaves the rows as they were.
    pub fn add<L: Ledger>(&mut self, row: Row, steps: &mut Steps<L>) -> Result<bool, AllocError>
        requires { IsPlain (origin_object row.origin.value) }
        ensures step { steps.new ≡ steps.old + 1 }
        ensures fresh { IfOk result
            (λ fresh. MatchBool fresh
            (¬ Contains (signs_of self.old) row.signs)
            (Contains (signs_of self.old) row.signs)) }
        ensures rows { IfOk result (λ fresh. self.new ≡ (if fresh then self.old ++ row ∷ [] else self.old)) }
        ensures err { OnErr result (self.new ≡ self.old) }
    {
        steps.tick();
        let alloc = *self.rows.allocator();
        self.rows.reserve(1)?;
        let fresh = keep_key(alloc, self.rows.as_slice(), &mut self.keys, &row.signs)?;
        if !fresh {
            return Ok(false);
        }
        self.rows.push_reserved(row);
        Ok(true)
    }

    /// An object that has the truth values of the row at a place: the one that its origin makes, without marks.
    /// An error comes for want of memory.
    pub fn object(&self, i: usize) -> Result<Object, AllocError>
        requires { i < length self.now }
        ensures object { IfOk result
            (λ o. IfSome (slice_get self.now i) (λ row. lisp_object o ≡ origin_object row.origin.value)) }
        ensures plain { IfOk result (λ o. IsPlain (lisp_object o)) }
    {
        self.row(i).origin.object(*self.rows.allocator())
    }
}

/// The place of the row with these truth values, looked for row by row.
fn place_of(rows: &[Row], signs: &Signs) -> Option<usize>
    ensures { MatchOption result
        (¬ Contains (signs_of rows.now) signs.now)
        (λ i. slice_get (signs_of rows.now) i ≡ Some signs.now) }
{
    'rows: for i in 0..rows.len() {
        if rows[i].signs == *signs {
            return Some(i);
        }
    }
    None
}

/// The truth values of the rows as keys of a look-up.
fn keys_of(alloc: Global, rows: &[Row]) -> Result<IndexSet<Signs>, AllocError>
    requires { AreDifferent rows.now }
    ensures { IfOk result (λ keys. keys.keys ≡ signs_of rows.now) }
{
    let mut keys = IndexSet::new(alloc);
    for row in rows {
        let key = row.signs.copy()?;
        keys.insert(key)?;
    }
    Ok(keys)
}

/// Keeps keys for few rows and one more with other truth values: all of them where the rows become many with it.
fn keep_new(
    alloc: Global,
    rows: &[Row],
    keys: &mut IndexSet<Signs>,
    signs: &Signs,
) -> Result<(), AllocError>
    requires few { length rows.now < MANY }
    requires different { AreDifferent rows.now }
    requires absent { ¬ Contains (signs_of rows.now) signs.now }
    ensures { OnOk result (HasKeysWith rows.now signs.now keys.new.keys) }
{
    if rows.len() + 1 < MANY {
        return Ok(());
    }
    let mut all = keys_of(alloc, rows)?;
    let key = signs.copy()?;
    all.insert(key)?;
    *keys = all;
    Ok(())
}

/// Whether none of few rows has these truth values. If so, keys are kept for the rows with one that does.
fn keep_first(
    alloc: Global,
    rows: &[Row],
    keys: &mut IndexSet<Signs>,
    signs: &Signs,
) -> Result<bool, AllocError>
    requires few { length rows.now < MANY }
    requires different { AreDifferent rows.now }
    ensures fresh { IfOk result (λ fresh. MatchBool fresh
        (¬ Contains (signs_of rows.now) signs.now)
        (Contains (signs_of rows.now) signs.now)) }
    ensures keys { IfOk result (λ fresh. fresh ≡ true → HasKeysWith rows.now signs.now keys.new.keys) }
{
    if let Some(_) = place_of(rows, signs) {
        return Ok(false);
    }
    keep_new(alloc, rows, keys, signs)?;
    Ok(true)
}

/// The same for many rows, whose truth values are the keys.
fn keep_more(rows: &[Row], keys: &mut IndexSet<Signs>, signs: &Signs) -> Result<bool, AllocError>
    requires { keys.old.keys ≡ signs_of rows.now }
    ensures fresh { IfOk result (λ fresh. MatchBool fresh
        (¬ Contains (signs_of rows.now) signs.now)
        (Contains (signs_of rows.now) signs.now)) }
    ensures keys { IfOk result (λ fresh. fresh ≡ true → HasKeysWith rows.now signs.now keys.new.keys) }
    ensures old { IfOk result (λ fresh. fresh ≡ false → HasKeys rows.now keys.new.keys) }
    ensures err { OnErr result (keys.new.keys ≡ keys.old.keys) }
{
    let key = signs.copy()?;
    let (_, fresh) = keys.insert_full(key)?;
    Ok(fresh)
}

/// Whether no row has these truth values. If so, keys are kept for the rows with one that does.
fn keep_key(
    alloc: Global,
    rows: &[Row],
    keys: &mut IndexSet<Signs>,
    signs: &Signs,
) -> Result<bool, AllocError>
    requires keys { HasKeys rows.now keys.old.keys }
    requires different { AreDifferent rows.now }
    ensures fresh { IfOk result (λ fresh. MatchBool fresh
        (¬ Contains (signs_of rows.now) signs.now)
        (Contains (signs_of rows.now) signs.now)) }
    ensures keys { IfOk result (λ fresh. fresh ≡ true → HasKeysWith rows.now signs.now keys.new.keys) }
    ensures old { IfOk result (λ fresh. fresh ≡ false → HasKeys rows.now keys.new.keys) }
    ensures err { OnErr result (HasKeys rows.now keys.new.keys) }
{
    if rows.len() < MANY {
        return keep_first(alloc, rows, keys, signs);
    }
    keep_more(rows, keys, signs)
}
