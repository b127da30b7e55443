//! Laws of the settings that are chosen for channels, without code: each is the contract of a
//! function that does nothing. What is said of a store's history is said of each chooser of
//! settings; these laws say that there is one, and that channels can be cut by what it chooses.

ghost use Rattle.ix_state.specs.Choosers.{ChoosersExist, ChosenCanCut, ChosenLivesJoin, SettingsExist};

/// Whatever entries of props.conf were read, and wherever the bytes of a channel come from, it has
/// settings: for each key the value of the first stanza that holds, or else a default. That any two
/// such settings of a channel mean the same is a law of `ix_props`.
pub fn settings_exist()
    ensures { SettingsExist }
{}

/// There is a chooser: one choice of the settings of channels, for every list of kept settings at
/// once, that chooses what these give. So what is said of every chooser is said of one at least.
pub fn choosers_exist()
    ensures { ChoosersExist }
{
    ix_props::readings_are_one();
    ix_props::settings_are_one();
}

/// Whatever commands came, and whoever chooses, the settings that are chosen for a channel can be
/// used. So what the commands of one life of a channel add, one behind the other, is what is
/// settled of its whole stream.
pub fn chosen_lives_join()
    ensures chosen { ChosenCanCut }
    ensures joined { ChosenLivesJoin }
{
    ix_props::settings_are_usable();
    ix_model::lives_join();
}
