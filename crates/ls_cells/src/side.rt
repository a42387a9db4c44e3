/// The car or the cdr of a cons.
#[derive(Clone, Copy, Debug)]
pub(crate) enum Side {
    Car,
    Cdr,
}
