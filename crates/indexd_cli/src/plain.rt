//! What words of the usual forms ask for, in plain terms. Whoever calls `read_words` may cite this
//! in place of `clap`'s definition.

ghost use Rattle.indexd_cli.specs.Plain.{PreviewIsAsked, WholePreviewIsAsked, BtoolIsAsked, ServeIsAsked, MonitorIsAsked, ExportIsAsked};
ghost use Rattle.indexd_cli.specs.Plain.{RangeIsAsked, RollIsAsked, ThawIsAsked, SelftestIsAsked, SingleWordsAreAsked, OthersAreUsage};

/// What is asked for by the words of each command, where no word in the place of a value begins
/// with `-`; values behind `=` may be any. Where a value is outside its range, and where the first
/// word is no command, nothing is asked for.
pub fn plain_words()
    ensures preview { PreviewIsAsked }
    ensures whole_preview { WholePreviewIsAsked }
    ensures btool { BtoolIsAsked }
    ensures serve { ServeIsAsked }
    ensures monitor { MonitorIsAsked }
    ensures export { ExportIsAsked }
    ensures range { RangeIsAsked }
    ensures roll { RollIsAsked }
    ensures thaw { ThawIsAsked }
    ensures selftest { SelftestIsAsked }
    ensures single_words { SingleWordsAreAsked }
    ensures others { OthersAreUsage }
{}
