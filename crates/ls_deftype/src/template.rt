ghost use Rattle.std.specs.Prelude.{◌≡◌};
ghost use Rattle.ls_deftype.specs.LambdaLists.{all_names};

use crate::lambda::OptionalParam;
use crate::names::Names;
use ls_object::{Items, Symbol};
use ls_reader::Datum;

/// What a DEFTYPE form says: its parameters, and the body into which arguments are put.
#[derive(Drop)]
pub struct Template {
    pub required: Items<Symbol>,
    pub optional: Items<OptionalParam>,
    pub rest: Option<Symbol>,
    /// What the body's quote or backquote holds, or T or NIL.
    pub body: Datum,
    /// The names of all parameters, for look-ups.
    pub(crate) names: Names,
    pub ghost indexed: { names ≡ all_names required optional rest },
}
