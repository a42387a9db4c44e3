use ls_object::Object;

/// The answer to whether every object of one type belongs to another (SUBTYPEP).
#[derive(Drop)]
pub enum Answer {
    /// Every object does.
    Yes,
    /// This object of the first type doesn't belong to the second, whatever the predicates mean.
    No(Object),
    /// There is no such object, but one of this form is in the first type and not in the second where each predicate
    /// is true or false as it suits, at each part of the object apart.
    Unsure(Object),
    /// The decision costs more than the budget.
    TooLarge,
}

/// The answer to whether an object belongs to a type (TYPEP).
#[derive(Clone, Copy, Debug)]
pub enum Belongs {
    /// It surely does, whatever the predicates mean: it is in the lower approximation of the type.
    Inside,
    /// It surely does not, whatever they mean: it is not in the upper approximation.
    Outside,
    /// That is for the predicates to say: it is in the upper approximation, and not in the lower one.
    Depends,
    /// The decision costs more than the budget.
    TooLarge,
}
