//! Laws of the settings of channels, without code: each is the contract of a function that does
//! nothing. Whoever reads the settings of a channel again, as after a start, stands on them.

ghost use Rattle.ix_props.specs.Same.{ReadingsAreOne, SettingsAreOne, SettingsAreUsable};

/// The settings of a channel are one: entries that mean the same give settings that mean the same,
/// wherever the bytes come from. All is equal but the numbers of the nodes of patterns.
pub fn settings_are_one()
    ensures { SettingsAreOne }
{
    ix_pattern::one_syntax();
}

/// What is read of props.conf, with the transforms and the time zones that it names, is one: some
/// entries mean the same as all that is ever read of these files. They are given by the law alone,
/// since no contract says how a pattern numbers its nodes.
pub fn readings_are_one()
    ensures { ReadingsAreOne }
{}

/// The settings that read entries give can be used: lines can be cut by them, merged, dated and
/// changed. So can all settings that mean the same.
pub fn settings_are_usable()
    ensures { SettingsAreUsable }
{}
