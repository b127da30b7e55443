//! What faults of settings say of themselves as errors: the texts that derives make, which no clause says.

use crate::tests::runs::compare;
use indexd_settings::{ConfigurationFault, ConfigurationStop, LayerFault, SettingsFile};
use ix_base::Bytes;
use ix_conf::ConfFault;
use std::alloc::Global;

const SHOWN: &str = "a layer of a settings file is refused: TooLong; \
a layer of a settings file is refused line 2: NoEquals; ";

/// Writes what a run says that has no settings, since a layer of props.conf has this fault.
fn show(text: &mut String, alloc: Global, fault: ConfFault) {
    let refusal = LayerFault {
        layer: Bytes::new(alloc),
        fault,
    };
    let file = SettingsFile::Props;
    let stop = ConfigurationStop::Refused(ConfigurationFault::File { file, refusal });
    let _ = write!(text, "{stop}; ");
    drop(stop);
}

#[test]
fn faults_of_settings_show_their_texts(rt: HostRuntime) {
    let mut text = String::new(rt.alloc());
    show(&mut text, rt.alloc(), ConfFault::TooLong);
    show(&mut text, rt.alloc(), ConfFault::NoEquals { line: 2 });
    compare(&rt, "faults of settings", text, SHOWN);
}
