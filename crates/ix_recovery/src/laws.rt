//! A law of what is recalled, without code: the contract of a function that does nothing. `recall`
//! stands on it.

ghost use Rattle.ix_recovery.specs.Laws.{LogsAreHeld, NoLogIsRefused};

/// Whatever list of what stands in the log of a history's store is taken: what is made of it in
/// memory is the state that the history leads to, and nothing in it can be a cause to refuse it.
pub fn logs_are_held()
    ensures held { LogsAreHeld }
    ensures refused { NoLogIsRefused }
{}
