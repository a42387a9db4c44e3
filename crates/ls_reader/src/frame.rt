use crate::datum::Datum;
use crate::place::Place;
use crate::token::{Bracket, Mark};
use sqlite_items::Items;

/// A construct that is begun and not ended, with the place where it begins.
#[derive(Drop)]
pub(crate) enum Frame {
    /// A list or a vector, with the data in it so far.
    List(Bracket, Place, Items<Datum>),
    /// A list whose dot no datum has followed, with the data before the dot.
    Dot(Place, Items<Datum>),
    /// A list with one datum behind its dot: the data before the dot, and that datum.
    Tail(Place, Items<Datum>, Datum),
    /// A mark, whose datum has not come yet.
    Mark(Mark, Place),
    /// A `#+`, or a `#-` where it is false, whose feature expression has not come yet.
    Feature(Place, bool),
    /// A `#+` or `#-` whose feature expression has come; whether the datum behind it is kept.
    Chosen(Place, bool),
}
