//! Laws of watched files. They have no code: whoever reasons about a program that watches files
//! calls them.

ghost use Rattle.ix_watch.specs.Passes.{PassesFollow};
ghost use Rattle.ix_watch.specs.Visits.{VisitsFollow};
ghost use Rattle.ix_watch.specs.Watching.{LongerIsWatched, WatchedIsRead};

/// A law of histories whose blocks go on with a file: in each of their prefixes, and so in each
/// image of a disk that stands for one, the blocks of the channel are together the first bytes of
/// the file, as many as are kept as read.
pub fn watched_is_read()
    ensures { WatchedIsRead }
{}

/// A law of files that grow: a history that goes on with a file goes on with a longer one that
/// begins with it.
pub fn longer_is_watched()
    ensures { LongerIsWatched }
{}

/// A law of visits: the commands of a visit, all or the first of them, go on with the file.
pub fn visits_follow()
    ensures { VisitsFollow }
{}

/// A law of passes: behind a pass, whole or stopped, the history goes on with each file that only
/// grows.
pub fn passes_follow()
    ensures { PassesFollow }
{}
