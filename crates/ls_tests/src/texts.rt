//! Data and specifiers from texts.

use ls_env::Env;
use ls_grammar::resolve;
use ls_object::Items;
use ls_reader::{Datum, read_text};
use ls_spec::Spec;
use std::alloc::Global;

/// The data of a text; None where it is not read.
pub(crate) fn data_of(alloc: Global, text: &str) -> Option<Items<Datum>> {
    if text.len() > 16_777_216 {
        return None;
    }
    read_text(alloc, text.as_bytes()).ok()
}

/// The specifiers that the data of a text denote; None where one denotes none.
pub(crate) fn list_of(alloc: Global, text: &str) -> Option<Items<Spec>> {
    let data = data_of(alloc, text)?;
    let env = Env::of_file(alloc, &data).ok()?;
    let mut list = Items::new(alloc);
    for datum in data.as_slice() {
        list.push(resolve(alloc, &env, datum).ok()?).ok()?;
    }
    Some(list)
}
