//! What faults of a link say of themselves as errors: the texts that a derive makes, which no clause says.

use crate::said::compare;
use ix_http::LinkFault;

const SHOWN: &str = "the link failed; the link ended inside a request; \
there was no room in memory for the request; ";

/// Writes what a fault says of itself.
fn show(text: &mut String, fault: LinkFault) {
    let _ = write!(text, "{fault}; ");
}

#[test]
fn faults_of_a_link_show_their_texts(rt: HostRuntime) {
    let mut text = String::new(rt.alloc());
    show(&mut text, LinkFault::Failed);
    show(&mut text, LinkFault::Cut);
    show(&mut text, LinkFault::NoMemory { whole: true });
    compare(&rt, text, SHOWN);
}
