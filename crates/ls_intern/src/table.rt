// The table.

ghost use Rattle.std.specs.Prelude.{◌≡◌, ◌<◌, [], length, IfOk};
ghost use Rattle.ls_spec.specs.Meaning.{specifier, specifiers, specifiers_of};
ghost use Rattle.ls_spec.specs.Keys.{key};
ghost use Rattle.ls_intern.specs.Places.{at, specifiers_at, node_specifier, AllBelow, PartsBelow, Distinct, Extends};
ghost use Rattle.ls_intern.specs.NodeKeys.{node_key};

use crate::keys::{key_of_array, key_of_parts};
use crate::node::{Id, Node};
use indexmap::IndexSet;
use ls_object::{Boxed, Items};
use ls_spec::{Spec, key_of};
use std::alloc::{AllocError, Global};
use std::marker::Model;

/// The distinct specifiers that were added, and their parts. Contracts see the list of them: a specifier's number is
/// its place.
#[derive(Drop)]
pub struct Table {
    alloc: Global,
    keys: IndexSet<Vec<u128>>,
    nodes: Vec<Node>,
}

impl Model for Table {
    ghost use Rattle.std.specs.Prelude.{List};
    ghost use Rattle.std.specs.Coded.{coded_list};
    ghost use Rattle.ls_spec.specs.Specifier.{Specifier};
    ghost use Rattle.ls_intern.specs.Codes.{coded_specifier};

    ghost Value = { List Specifier };

    ghost coded = { coded_list coded_specifier };

    ghost use Rattle.ls_intern.specs.Filling.{specifiers_of_nodes, AreNodes};

    ghost view = { λ t. specifiers_of_nodes t.nodes.items };

    ghost invariant = { λ t. AreNodes t.keys.keys t.nodes.items };
}

impl Table {
    /// A table of no specifier.
    pub fn new(alloc: Global) -> Table
        ensures { result ≡ [] }
    {
        Table {
            alloc,
            keys: IndexSet::new(alloc),
            nodes: Vec::new(alloc),
        }
    }

    /// How many specifiers it has. Two of them are never equal.
    pub fn len(&self) -> usize
        ensures len { result ≡ length self.now }
        ensures distinct { Distinct self.now }
    {
        self.nodes.len()
    }

    /// The level of the specifier with that number. Its parts have lower numbers.
    pub fn node(&self, id: Id) -> &Node
        requires { id < length self.now }
        ensures says { node_specifier self.now result.now ≡ at self.now id }
        ensures before { PartsBelow id result.now }
    {
        &self.nodes[id]
    }

    /// The allocator that the table takes its memory from.
    pub(crate) fn allocator(&self) -> Global {
        self.alloc
    }

    /// The number of a node, which is put in behind the others if it isn't there. After a refusal the table is as
    /// before.
    fn put(&mut self, key: Vec<u128>, node: Node) -> Result<Id, AllocError>
        requires key { key.items ≡ node_key node }
        requires before { PartsBelow (length self.old) node }
        ensures grows { Extends self.old self.new }
        ensures within { IfOk result (λ id. id < length self.new) }
        ensures is { IfOk result (λ id. at self.new id ≡ node_specifier self.old node) }
    {
        self.nodes.reserve(1)?;
        let (id, is_new) = self.keys.insert_full(key)?;
        if !is_new {
            return Ok(id);
        }
        self.nodes.push_reserved(node);
        Ok(id)
    }

    /// The number of a node without parts, the level of this specifier.
    fn put_single(&mut self, spec: &Spec, node: Node) -> Result<Id, AllocError>
        requires key { node_key node ≡ key (specifier spec.now) }
        requires before { PartsBelow (length self.old) node }
        ensures grows { Extends self.old self.new }
        ensures within { IfOk result (λ id. id < length self.new) }
        ensures is { IfOk result (λ id. at self.new id ≡ node_specifier self.old node) }
    {
        let key = key_of(self.alloc, spec)?;
        self.put(key, node)
    }

    /// The number of a specifier, which is put in behind its parts if it isn't there. No number changes, also where
    /// memory is refused; then some of the parts may have been put in.
    #[cycle(add)]
    #[tactic(auto, using(crate::proofs::PlaceLemmas::at_grown))]
    pub fn add(&mut self, spec: &Spec) -> Result<Id, AllocError>
        ensures grows { Extends self.old self.new }
        ensures within { IfOk result (λ id. id < length self.new) }
        ensures is { IfOk result (λ id. at self.new id ≡ specifier spec.now) }
    {
        match spec {
            Spec::All => self.put_single(spec, Node::All),
            Spec::Nothing => self.put_single(spec, Node::Nothing),
            Spec::And(parts) => {
                let ids = self.add_all(parts.as_slice())?;
                let key = key_of_parts(self.alloc, 2, ids.as_slice())?;
                self.put(key, Node::And(ids))
            }
            Spec::Or(parts) => {
                let ids = self.add_all(parts.as_slice())?;
                let key = key_of_parts(self.alloc, 3, ids.as_slice())?;
                self.put(key, Node::Or(ids))
            }
            Spec::Not(part) => {
                let id = self.add(part.get())?;
                let key = key_of_parts(self.alloc, 4, &[id])?;
                self.put(key, Node::Not(id))
            }
            Spec::Eql(point) => {
                let node = Node::Eql(point.copy()?);
                self.put_single(spec, node)
            }
            Spec::Range { kind, lo, hi } => {
                let node = Node::Range {
                    kind: *kind,
                    lo: *lo,
                    hi: *hi,
                };
                self.put_single(spec, node)
            }
            Spec::Chars(class) => self.put_single(spec, Node::Chars(*class)),
            Spec::Symbols(class) => self.put_single(spec, Node::Symbols(*class)),
            Spec::Kind(kind) => self.put_single(spec, Node::Kind(*kind)),
            Spec::StructIs(name) => {
                let node = Node::StructIs(name.copy()?);
                self.put_single(spec, node)
            }
            Spec::StructAny => self.put_single(spec, Node::StructAny),
            Spec::ArrayOf { elem, simple, dims } => match elem {
                None => {
                    let node = Node::ArrayOf {
                        elem: None,
                        simple: *simple,
                        dims: dims.copy(self.alloc)?,
                    };
                    self.put_single(spec, node)
                }
                Some(elem) => {
                    let id = self.add(elem.get())?;
                    let key = key_of_array(self.alloc, id, *simple, dims)?;
                    let node = Node::ArrayOf {
                        elem: Some(id),
                        simple: *simple,
                        dims: dims.copy(self.alloc)?,
                    };
                    self.put(key, node)
                }
            },
            Spec::StringOf { simple, dim } => {
                let node = Node::StringOf {
                    simple: *simple,
                    dim: *dim,
                };
                self.put_single(spec, node)
            }
            Spec::ConsOf(car, cdr) => {
                let first = self.add(car.get())?;
                let second = self.add(cdr.get())?;
                let key = key_of_parts(self.alloc, 15, &[first, second])?;
                let id = self.put(key, Node::ConsOf(first, second))?;
                Ok(id)
            }
            Spec::Satisfies(predicate) => {
                let node = Node::Satisfies(predicate.copy()?);
                self.put_single(spec, node)
            }
        }
    }

    /// The numbers of a list of specifiers, in order.
    #[cycle(add)]
    fn add_all(&mut self, specs: &[Spec]) -> Result<Items<Id>, AllocError>
        ensures grows { Extends self.old self.new }
        ensures within { IfOk result (λ ids. AllBelow (length self.new) ids) }
        ensures is { IfOk result (λ ids. specifiers_of (specifiers_at self.new ids) ≡ specifiers specs.now) }
    {
        let mut ids = Items::new(self.alloc);
        for spec in specs {
            let id = self.add(spec)?;
            ids.push(id)?;
        }
        Ok(ids)
    }
}
