ghost use Rattle.std.specs.Prelude.{◌≡◌};
ghost use Rattle.ls_reader.specs.steps.Building.{Steps};
ghost use Rattle.ls_reader.specs.Features as features;
ghost use Rattle.ls_reader.specs.steps.Building as spec;

use crate::datum::Datum;
use crate::fault::{Failure, FaultKind};
use crate::feature::{holds, is_kept};
use crate::frame::Frame;
use crate::making::{datum, dotted, listed, mark_on, start_of, takes_dot};
use crate::place::Place;
use crate::stack::Stack;
use crate::token::Token;
use sqlite_items::Items;
use std::alloc::Global;

/// How deep constructs may stand in one another.
const MAX_DEPTH: usize = 256;

/// The data that are whole and stand in nothing, and the constructs that are begun.
#[derive(Drop)]
pub(crate) struct Builder {
    pub frames: Stack<Frame>,
    pub done: Items<Datum>,
}

impl Builder {
    pub fn new(alloc: Global) -> Builder
        ensures { result ≡ spec.nothing }
    {
        Builder {
            frames: Stack::new(alloc),
            done: Items::new(alloc),
        }
    }

    /// A datum is whole: it goes into the construct around it, and may end that. It fails where it is a second one
    /// behind a dot, and where it ends a feature expression out of form.
    fn put(&mut self, alloc: Global, datum: Datum) -> Result<(), Failure>
        ensures { Steps result self.new (spec.put datum self.old.frames self.old.done) }
    {
        let mut datum = datum;
        while let Some(frame) = self.frames.pop() {
            match frame {
                Frame::List(kind, from, mut items) => {
                    items.push(datum)?;
                    self.frames.push(Frame::List(kind, from, items))?;
                    return Ok(());
                }
                Frame::Dot(from, items) => {
                    self.frames.push(Frame::Tail(from, items, datum))?;
                    return Ok(());
                }
                Frame::Tail(..) => {
                    return Err(Failure::Fault(FaultKind::BadDot, start_of(&datum)));
                }
                Frame::Mark(kind, from) => datum = mark_on(alloc, kind, from, datum)?,
                Frame::Feature(from, plus) => return self.choose(from, plus, &datum),
                Frame::Chosen(_, true) => {}
                Frame::Chosen(_, false) => return Ok(()),
            }
        }
        self.done.push(datum)?;
        Ok(())
    }

    /// The expression of a `#+` or `#-` is whole.
    fn choose(&mut self, from: Place, plus: bool, expression: &Datum) -> Result<(), Failure>
        ensures { let value = features.holds expression.now in
            Steps result self.new (spec.choose from plus value self.old.frames self.old.done) }
    {
        match holds(expression) {
            Some(holds) => {
                self.frames.push(Frame::Chosen(from, is_kept(plus, holds)))?;
                Ok(())
            }
            None => Err(Failure::Fault(FaultKind::BadToken, from)),
        }
    }

    /// Whether a datum may begin: not as a second one behind a dot.
    fn admits(&self) -> bool
        ensures { result ≡ spec.admits self.now.frames }
    {
        for depth in 0..self.frames.len() {
            match self.frames.get(depth) {
                Some(Frame::Chosen(_, true)) => {}
                Some(Frame::Tail(..)) => return false,
                _ => return true,
            }
        }
        true
    }

    /// A construct begins, unless it is too deep.
    #[inline(always)]
    fn begin(&mut self, from: Place, frame: Frame) -> Result<(), Failure>
        ensures { Steps result self.new (spec.begin from frame self.old) }
    {
        if self.frames.len() >= MAX_DEPTH {
            return Err(Failure::Fault(FaultKind::TooDeep, from));
        }
        self.frames.push(frame)?;
        Ok(())
    }

    /// A construct that is a datum begins.
    #[inline(always)]
    fn begin_datum(&mut self, from: Place, frame: Frame) -> Result<(), Failure>
        ensures { Steps result self.new (spec.begin_datum from frame self.old) }
    {
        if !self.admits() {
            return Err(Failure::Fault(FaultKind::BadDot, from));
        }
        self.begin(from, frame)
    }

    /// A closing bracket ends the innermost construct.
    fn close(&mut self, alloc: Global, at: Place, to: Place) -> Result<(), Failure>
        ensures { Steps result self.new (spec.close at to self.old.frames self.old.done) }
    {
        match self.frames.pop() {
            Some(Frame::List(kind, from, items)) => {
                let form = listed(alloc, kind, items)?;
                self.put(alloc, datum(from, to.byte, form))
            }
            Some(Frame::Tail(from, items, last)) => {
                let form = dotted(alloc, items, last)?;
                self.put(alloc, datum(from, to.byte, form))
            }
            Some(Frame::Dot(..)) => Err(Failure::Fault(FaultKind::BadDot, at)),
            _ => Err(Failure::Fault(FaultKind::StrayClose, at)),
        }
    }

    /// A dot stands in the innermost construct.
    fn dot(&mut self, at: Place) -> Result<(), Failure>
        ensures { Steps result self.new (spec.dot at self.old.frames self.old.done) }
    {
        match self.frames.pop() {
            Some(Frame::List(kind, from, items)) => {
                if !takes_dot(kind, &items) {
                    return Err(Failure::Fault(FaultKind::BadDot, at));
                }
                self.frames.push(Frame::Dot(from, items))?;
                Ok(())
            }
            _ => Err(Failure::Fault(FaultKind::BadDot, at)),
        }
    }

    /// Takes the token that stands between two places.
    pub fn step(
        &mut self,
        alloc: Global,
        from: Place,
        to: Place,
        token: Token,
    ) -> Result<(), Failure>
        ensures { Steps result self.new (spec.step from to token self.old) }
    {
        match token {
            Token::Gap => Ok(()),
            Token::Open(kind) => self.begin_datum(from, Frame::List(kind, from, Items::new(alloc))),
            Token::Close => self.close(alloc, from, to),
            Token::Dot => self.dot(from),
            Token::Mark(kind) => self.begin_datum(from, Frame::Mark(kind, from)),
            Token::Feature(plus) => self.begin(from, Frame::Feature(from, plus)),
            Token::Atom(form) => self.put(alloc, datum(from, to.byte, form)),
            Token::Bad(kind) => Err(Failure::Fault(kind, from)),
        }
    }

    /// The data, where nothing is begun; else the start of the innermost construct.
    pub fn finish(self) -> Result<Items<Datum>, Place>
        ensures { result ≡ spec.finish self }
    {
        let Builder { mut frames, done } = self;
        match frames.pop() {
            None => Ok(done),
            Some(
                Frame::List(_, from, _)
                | Frame::Dot(from, _)
                | Frame::Tail(from, _, _)
                | Frame::Mark(_, from)
                | Frame::Feature(from, _)
                | Frame::Chosen(from, _),
            ) => Err(from),
        }
    }
}
