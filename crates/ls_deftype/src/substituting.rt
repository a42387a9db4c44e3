// A template with arguments put in.

ghost use Rattle.std.specs.Prelude.{◌≡◌, ◌+◌, IfOk, IfErr};
ghost use Rattle.ls_reader.specs.Sizes.{size};
ghost use Rattle.ls_deftype.specs.Templates.{definition_of};
ghost use Rattle.ls_deftype.specs.Answers.{IsExpansion, IsRefusalOf};

use crate::arguments::Use;
use crate::fault::SubstituteFault;
use crate::room::Stop;
use crate::template::Template;
use ls_reader::{Datum, Span};
use std::alloc::Global;

impl Template {
    /// The template with the arguments of a use at a place, put in as written data. The data of the body and the
    /// arguments keep their spans. ArgumentCount comes exactly where there are fewer arguments than required
    /// parameters, or more than required and optional ones and there is no rest parameter; TooManyNodes exactly where
    /// the result would have more data than `room`, and no more than these are made.
    pub fn substitute(
        &self,
        alloc: Global,
        place: Span,
        args: &[Datum],
        room: u64,
    ) -> Result<Datum, SubstituteFault>
        ensures ok { IfOk result (IsExpansion (definition_of self.now) place args.now room) }
        ensures err { IfErr result (IsRefusalOf (definition_of self.now) place args.now room) }
    {
        let mut left = room;
        self.expand(alloc, place, args, &mut left)
    }

    /// What `substitute` answers for the room; the size of the result is taken from it.
    pub fn expand(
        &self,
        alloc: Global,
        place: Span,
        args: &[Datum],
        room: &mut u64,
    ) -> Result<Datum, SubstituteFault>
        ensures ok { IfOk result (IsExpansion (definition_of self.now) place args.now room.old) }
        ensures taken { IfOk result (λ d. room.new + size d ≡ room.old) }
        ensures err { IfErr result (IsRefusalOf (definition_of self.now) place args.now room.old) }
    {
        if !self.takes(args.len()) {
            return Err(SubstituteFault::ArgumentCount);
        }
        let used = Use {
            alloc,
            template: self,
            place,
            args,
        };
        match used.fill(&self.body, room) {
            Ok(datum) => Ok(datum),
            Err(Stop::TooMany) => Err(SubstituteFault::TooManyNodes),
            Err(Stop::Memory) => Err(SubstituteFault::Memory),
        }
    }
}
