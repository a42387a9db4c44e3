// Whether a template leads back to itself, by a walk along what bodies mention.

ghost use Rattle.std.specs.Prelude.{◌≡◌, IfOk, OnOk};
ghost use Rattle.ls_env.specs.Reaching as spec;

use ls_object::Items;
use std::alloc::{AllocError, Global};

/// Templates that were seen, in order, and for each template whether it is among them.
#[derive(Drop)]
pub(crate) struct Seen {
    pub marked: Items<bool>,
    pub order: Items<usize>,
}

impl Seen {
    #[tactic(auto, using(crate::proofs::WalkLemmas::falses_push))]
    fn new(alloc: Global, count: usize) -> Result<Seen, AllocError>
        ensures { IfOk result (λ s. s ≡ spec.blank count) }
    {
        let mut marked = Items::new(alloc);
        for _ in 0..count {
            marked.push(false)?;
        }
        Ok(Seen {
            marked,
            order: Items::new(alloc),
        })
    }

    /// Sees a template, once.
    fn see(&mut self, number: usize) -> Result<(), AllocError>
        ensures { OnOk result (self.new ≡ spec.see number self.old) }
    {
        if let Some(false) = self.marked.get(number) {
            self.marked.set(number, true);
            self.order.push(number)?;
        }
        Ok(())
    }

    fn see_all(&mut self, numbers: &[usize]) -> Result<(), AllocError>
        ensures { OnOk result (self.new ≡ spec.see_all numbers.now self.old) }
    {
        for number in numbers {
            self.see(*number)?;
        }
        Ok(())
    }

    /// Sees what the template seen at a place mentions.
    fn follow(&mut self, graph: &[Items<usize>], at: usize) -> Result<(), AllocError>
        ensures { OnOk result (self.new ≡ spec.follow graph.now at self.old) }
    {
        let Some(number) = self.order.get(at) else {
            return Ok(());
        };
        let number = *number;
        match graph.get(number) {
            None => Ok(()),
            Some(numbers) => self.see_all(numbers.as_slice()),
        }
    }
}

/// Whether the walk from a template sees it again.
#[tactic(auto, using(crate::proofs::WalkLemmas::walk_next, crate::proofs::WalkLemmas::walk_end), unfolding(crate::specs::Reaching::comes_back))]
pub(crate) fn comes_back(
    alloc: Global,
    graph: &[Items<usize>],
    number: usize,
) -> Result<bool, AllocError>
    ensures { IfOk result (λ b. b ≡ spec.comes_back graph.now number) }
{
    let mut seen = Seen::new(alloc, graph.len())?;
    if let Some(numbers) = graph.get(number) {
        seen.see_all(numbers.as_slice())?;
    }
    for at in 0..graph.len() {
        seen.follow(graph, at)?;
    }
    Ok(match seen.marked.get(number) {
        Some(b) => *b,
        None => false,
    })
}
