//! What holds of the bytes of a log.

ghost use Rattle.ix_log.specs.Log.{EndHasBodies, HaveOneList};

/// A file has one list of bodies at the most: so what a log reads there is the list that was put.
pub fn one_list()
    ensures list { HaveOneList }
    ensures end { EndHasBodies }
{}
