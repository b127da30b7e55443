//! What holds of the bounds, whatever list of a book is taken. Whoever keeps the state another way
//! shows by it that it fits.

ghost use Rattle.ix_replay.specs.Lists.{AreOneList, HaveOneSum};
ghost use Rattle.ix_replay.specs.Fits.{AllKeepBounds};

/// Two lists of what stands in one book are one list in two orders: what they add up to is the
/// same, and where one keeps the bounds each does.
pub fn all_keep_bounds()
    ensures one_list { AreOneList }
    ensures one_sum { HaveOneSum }
    ensures bounds { AllKeepBounds }
{}
