//! Events that are changed, routed and dropped. Changes are texts of SEDCMD, transforms are texts of transforms.conf.

ghost use Rattle.std.specs.Prelude.{All, IfOk, OnOk};
ghost use Rattle.ix_conf_values.specs.Seds.{IsApplicable};
ghost use Rattle.ix_conf_values.specs.Transforms.{HasDestination};

use crate::said::{bytes_of, compare, many, merged, put, put_event};
use ix_base::{Bytes, Event, NoMemory, Routed};
use ix_conf::Merged;
use ix_conf_values::{Sed, SedList, Transform, TransformList};
use ix_transforms::apply;
use std::alloc::Global;

fn sed_of(alloc: Global, text: &[u8]) -> Result<Sed, NoMemory>
    ensures { IfOk result (λ sed. IsApplicable sed) }
{
    match Sed::read(alloc, text) {
        Ok(sed) => Ok(sed),
        Err(_) => Err(NoMemory),
    }
}

/// Adds the changes of a text, with `~` between. No text here is refused.
fn add_seds(alloc: Global, texts: &str, seds: &mut SedList) -> Result<(), NoMemory>
    requires { All (λ sed. IsApplicable sed) seds.old }
    ensures { OnOk result (All (λ sed. IsApplicable sed) seds.new) }
{
    for text in texts.split('~') {
        if !text.is_empty() {
            seds.push(sed_of(alloc, text.as_bytes())?)?;
        }
    }
    Ok(())
}

/// Adds the transform of a stanza. No stanza here is missing or refused.
fn add_transform(
    alloc: Global,
    merged: &Merged,
    name: &[u8],
    transforms: &mut TransformList,
) -> Result<(), NoMemory>
    requires { All (λ transform. HasDestination transform) transforms.old }
    ensures { OnOk result (All (λ transform. HasDestination transform) transforms.new) }
{
    if !merged.has(name) {
        return Err(NoMemory);
    }
    match Transform::read(alloc, name, merged) {
        Ok(transform) => {
            transforms.push(transform)?;
            Ok(())
        }
        Err(_) => Err(NoMemory),
    }
}

/// Adds the transforms of stanzas, with commas between the names.
fn add_transforms(
    alloc: Global,
    merged: &Merged,
    names: &str,
    transforms: &mut TransformList,
) -> Result<(), NoMemory>
    requires { All (λ transform. HasDestination transform) transforms.old }
    ensures { OnOk result (All (λ transform. HasDestination transform) transforms.new) }
{
    for name in names.split(',') {
        if !name.is_empty() {
            add_transform(alloc, merged, name.as_bytes(), transforms)?;
        }
    }
    Ok(())
}

/// An event of these indexed fields and this raw text.
fn event(alloc: Global, meta: Bytes, raw: Bytes) -> Event {
    Event {
        time: 7,
        arrival: 8,
        index: bytes_of(alloc, b"main"),
        host: bytes_of(alloc, b"web1"),
        source: bytes_of(alloc, b"/log"),
        sourcetype: bytes_of(alloc, b"app"),
        meta,
        raw,
    }
}

/// What an event comes to by changes and the transforms of stanzas.
fn routed(
    alloc: Global,
    seds: &SedList,
    merged: &Merged,
    names: &str,
    event: Event,
) -> Result<Routed, NoMemory>
    requires { All (λ sed. IsApplicable sed) seds.now }
{
    let mut transforms = TransformList::new(alloc);
    let routed = match add_transforms(alloc, merged, names, &mut transforms) {
        Ok(()) => apply(alloc, seds, &transforms, event),
        Err(NoMemory) => {
            drop(event);
            Err(NoMemory)
        }
    };
    drop(transforms);
    routed
}

/// What a row comes to: texts of SEDCMD, stanzas and a raw text, with tabs between.
fn outcome(alloc: Global, merged: &Merged, row: &str) -> Result<Routed, NoMemory> {
    let mut fields = row.split('\t');
    let texts = fields.next().unwrap_or("");
    let names = fields.next().unwrap_or("");
    let raw = fields.next().unwrap_or("");
    let mut seds = SedList::new(alloc);
    let routed = match add_seds(alloc, texts, &mut seds) {
        Ok(()) => {
            let meta = bytes_of(alloc, b"a::1");
            let raw = bytes_of(alloc, raw.as_bytes());
            routed(alloc, &seds, merged, names, event(alloc, meta, raw))
        }
        Err(NoMemory) => Err(NoMemory),
    };
    drop(seds);
    routed
}

/// Writes the fields of an event that is kept, with bars between, or `null`.
fn put_routed(text: &mut String, routed: &Routed) {
    match routed {
        Routed::Null => put(text, "null"),
        Routed::To(event) => put_event(text, event, "|"),
    }
}

fn put_row(text: &mut String, alloc: Global, merged: &Merged, row: &str) {
    if let Ok(routed) = outcome(alloc, merged, row) {
        put_routed(text, &routed);
        drop(routed);
    }
    put(text, "\n");
}

/// What each row comes to, a line each, by this text of transforms.conf.
fn outcomes(alloc: Global, settings: &str, rows: &str) -> String {
    let mut text = String::new(alloc);
    if let Ok(merged) = merged(alloc, settings) {
        for row in rows.split('\n') {
            put_row(&mut text, alloc, &merged, row);
        }
        drop(merged);
    }
    text
}

/// Texts of SEDCMD, no stanza, and a raw text.
const CHANGES: &str = "~\t\tcard 1234-5678\n\
        s/\\d{4}-(\\d{4})/xxxx-\\1/g\t\tcard 1234-5678, pay 8765-4321\n\
        s/a/b/\t\taaa\n\
        s/a/b/1\t\taaa\n\
        s/a/b/2\t\taaa\n\
        s/a/b/4\t\taaa\n\
        s/aa/b/g\t\taaaaa\n\
        s/aa/b/2\t\taaaaa\n\
        s/x*/-/g\t\tabc\n\
        s/b*/-/g\t\tabc\n\
        s/x*/-/2\t\tabc\n\
        s/x*/-/5\t\tabc\n\
        s/x*/-/g\t\t\n\
        s/^/> /g\t\tabc\n\
        s/$/!/g\t\tabc\n\
        s/(a)|(b)/[\\1\\2]/g\t\tabc\n\
        s/b/<\\1\\9>/\t\tabc\n\
        s/b/&\\&\\//\t\tabc\n\
        s/, /\\n\\t/g\t\ta, b, c\n\
        s/b+//g\t\tabbcb\n\
        s/(?i)PASS=\\S+/pass=***/\t\tuser=ann pass=secret ok\n\
        s/(\\w+) (\\w+)/\\2 \\1/\t\tone two three\n\
        y/abc/xyz/\t\taabbccd\n\
        y/aab/xyz/\t\tab\n\
        y/ab/ba/\t\tabba\n\
        s/,/\\n/~y/\\n/ /\t\ta,b\n\
        s/a/b/g~s/b/c/g\t\tab\n\
        s/b/c/g~s/a/b/g\t\tab\n\
        s/x/y/~y/ab/cd/~s/q/r/3\t\tab";

/// What each leaves.
const CHANGED: &str = "main|web1|/log|app|a::1|card 1234-5678\n\
        main|web1|/log|app|a::1|card xxxx-5678, pay xxxx-4321\n\
        main|web1|/log|app|a::1|baa\n\
        main|web1|/log|app|a::1|baa\n\
        main|web1|/log|app|a::1|aba\n\
        main|web1|/log|app|a::1|aaa\n\
        main|web1|/log|app|a::1|bba\n\
        main|web1|/log|app|a::1|aaba\n\
        main|web1|/log|app|a::1|-a-b-c-\n\
        main|web1|/log|app|a::1|-a--c-\n\
        main|web1|/log|app|a::1|a-bc\n\
        main|web1|/log|app|a::1|abc\n\
        main|web1|/log|app|a::1|-\n\
        main|web1|/log|app|a::1|> abc\n\
        main|web1|/log|app|a::1|abc!\n\
        main|web1|/log|app|a::1|[a][b]c\n\
        main|web1|/log|app|a::1|a<>c\n\
        main|web1|/log|app|a::1|a&&/c\n\
        main|web1|/log|app|a::1|a\n\tb\n\tc\n\
        main|web1|/log|app|a::1|ac\n\
        main|web1|/log|app|a::1|user=ann pass=*** ok\n\
        main|web1|/log|app|a::1|two one three\n\
        main|web1|/log|app|a::1|xxyyzzd\n\
        main|web1|/log|app|a::1|xz\n\
        main|web1|/log|app|a::1|baab\n\
        main|web1|/log|app|a::1|a b\n\
        main|web1|/log|app|a::1|cc\n\
        main|web1|/log|app|a::1|bc\n\
        main|web1|/log|app|a::1|cd\n";

/// The value of each key as the new raw text, each key as a destination, and what each does not take.
const KEYS: &str = "[default]\n\
    REGEX = (.*)\n\
    FORMAT = $1\n\
    DEST_KEY = _raw\n\
    [raw]\nSOURCE_KEY = _raw\n\
    [meta]\nSOURCE_KEY = _meta\n\
    [queue]\nSOURCE_KEY = queue\n\
    [index]\nSOURCE_KEY = _MetaData:Index\n\
    [host]\nSOURCE_KEY = MetaData:Host\n\
    [source]\nSOURCE_KEY = MetaData:Source\n\
    [sourcetype]\nSOURCE_KEY = MetaData:Sourcetype\n\
    [toraw]\nDEST_KEY = _raw\n\
    [tometa]\nDEST_KEY = _meta\n\
    [toqueue]\nDEST_KEY = queue\n\
    [toindex]\nDEST_KEY = _MetaData:Index\n\
    [tohost]\nDEST_KEY = MetaData:Host\n\
    [tosource]\nDEST_KEY = MetaData:Source\n\
    [tosourcetype]\nDEST_KEY = MetaData:Sourcetype\n";

/// No change, stanzas and a raw text.
const KEYED: &str = "~\traw\tx\n\
        ~\tmeta\tx\n\
        ~\tqueue\tx\n\
        ~\tindex\tx\n\
        ~\thost\tx\n\
        ~\tsource\tx\n\
        ~\tsourcetype\tx\n\
        ~\ttoraw\tx\n\
        ~\ttometa\tb::2\n\
        ~\ttoqueue\tnullQueue\n\
        ~\ttoqueue\tindexQueue\n\
        ~\ttoqueue\tnullqueue\n\
        ~\ttoqueue,queue\tparsingQueue\n\
        ~\ttoindex\tweb\n\
        ~\ttoindex\t\n\
        ~\ttohost\thost::web2\n\
        ~\ttohost\thost::\n\
        ~\ttohost\tweb2\n\
        ~\ttohost\tsource::web2\n\
        ~\ttosource\tsource::/tmp\n\
        ~\ttosource\tsource:/tmp\n\
        ~\ttosourcetype\tsourcetype::mail\n\
        ~\ttosourcetype\tsource::mail";

/// What each leaves.
const BY_KEY: &str = "main|web1|/log|app|a::1|x\n\
        main|web1|/log|app|a::1|a::1\n\
        main|web1|/log|app|a::1|indexQueue\n\
        main|web1|/log|app|a::1|main\n\
        main|web1|/log|app|a::1|host::web1\n\
        main|web1|/log|app|a::1|source::/log\n\
        main|web1|/log|app|a::1|sourcetype::app\n\
        main|web1|/log|app|a::1|x\n\
        main|web1|/log|app|b::2|b::2\n\
        null\n\
        main|web1|/log|app|a::1|indexQueue\n\
        main|web1|/log|app|a::1|nullqueue\n\
        main|web1|/log|app|a::1|indexQueue\n\
        web|web1|/log|app|a::1|web\n\
        |web1|/log|app|a::1|\n\
        main|web2|/log|app|a::1|host::web2\n\
        main||/log|app|a::1|host::\n\
        main|web1|/log|app|a::1|web2\n\
        main|web1|/log|app|a::1|source::web2\n\
        main|web1|/tmp|app|a::1|source::/tmp\n\
        main|web1|/log|app|a::1|source:/tmp\n\
        main|web1|/log|mail|a::1|sourcetype::mail\n\
        main|web1|/log|app|a::1|source::mail\n";

/// Transforms that route, add and replace.
const ROUTES: &str = "[drop]\nREGEX = xxxx-4\nDEST_KEY = queue\nFORMAT = nullQueue\n\
    [all]\nREGEX = .\nDEST_KEY = queue\nFORMAT = nullQueue\n\
    [keep]\nREGEX = ERROR\nDEST_KEY = queue\nFORMAT = indexQueue\n\
    [user]\nREGEX = user=(\\w+)\nWRITE_META = true\nFORMAT = user::$1\n\
    [named]\nREGEX = user=(\\w+)\nWRITE_META = true\n\
    [none]\nREGEX = user=(\\w+)()?\nWRITE_META = true\nFORMAT = $2$3$99\n\
    [meta]\nREGEX = (\\w+)=\nWRITE_META = true\nDEST_KEY = queue\nFORMAT = was:$0,is:$1\n\
    [empty]\nREGEX = .*\nDEST_KEY = _meta\nFORMAT = $7\n\
    [more]\nREGEX = [0-9]+\nDEST_KEY = _raw\nFORMAT = <$0>\n\
    [level]\nREGEX = (ERROR|WARN)\nWRITE_META = true\nFORMAT = level::$1\nDEFAULT_VALUE = level::none\n\
    [else]\nREGEX = ERROR\nDEST_KEY = _MetaData:Index\nFORMAT = errors\nDEFAULT_VALUE = $0rest\n\
    [other]\nREGEX = ERROR\nDEST_KEY = MetaData:Host\nFORMAT = host::bad\nDEFAULT_VALUE = good\n\
    [front]\nREGEX = \\d$\nLOOKAHEAD = 3\nDEST_KEY = _raw\nFORMAT = cut\n\
    [back]\nREGEX = d\nLOOKAHEAD = 3\nDEST_KEY = _raw\nFORMAT = seen\n\
    [prefix]\nREGEX = ^host::we$\nLOOKAHEAD = 8\nSOURCE_KEY = MetaData:Host\nDEST_KEY = _raw\nFORMAT = $0 of $1\n\
    [first]\nREGEX = (a|ab)(c|bcd)?\nDEST_KEY = _raw\nFORMAT = $1.$2.$10$\n\
    [audit]\nREGEX = ^(?:sudo|su|sshd)\\[\nDEST_KEY = _MetaData:Index\nFORMAT = audit\n\
    [syslog-host]\nREGEX = ^\\w{3} +\\d+ [\\d:]{8} (\\S+)\nDEST_KEY = MetaData:Host\nFORMAT = host::$1\n";

/// Texts of SEDCMD, stanzas and a raw text.
const EVENTS: &str = "s/\\d{4}-(\\d{4})/xxxx-\\1/g\tdrop\tcard 1234-5678\n\
        s/\\d{4}-(\\d{4})/xxxx-\\1/g\tdrop\tpay 8765-4321\n\
        ~\tdrop\tpay 8765-4321\n\
        ~\tall,keep\tERROR x\n\
        ~\tall,keep\tINFO x\n\
        ~\tkeep,all\tERROR x\n\
        ~\tuser\tuser=ann\n\
        ~\tuser,user\tuser=ann\n\
        ~\tnamed\tuser=ann\n\
        ~\tnone\tuser=ann\n\
        ~\tempty,user\tuser=ann\n\
        ~\tmeta\tuser=ann\n\
        ~\tmore,more\tn=7\n\
        ~\tlevel\ta WARN\n\
        ~\tlevel\ta note\n\
        ~\telse\tERROR\n\
        ~\telse\tnote\n\
        ~\tother\tERROR\n\
        ~\tother\tnote\n\
        ~\tfront\tab3d\n\
        ~\tfront\tabc3\n\
        ~\tback\tabcd\n\
        ~\tprefix\tx\n\
        ~\tfirst\txabcd\n\
        ~\tdrop,,\tx\n\
        ~\taudit\tsshd[311]: Accepted publickey for ann\n\
        ~\taudit\tapp[311]: x\n\
        ~\tsyslog-host\tNov 14 22:10:01 db7 sshd[311]: x\n\
        ~\tlevel,named\tWARN user=ann slow";

/// What each comes to.
const ROUTED: &str = "main|web1|/log|app|a::1|card xxxx-5678\n\
        null\n\
        main|web1|/log|app|a::1|pay 8765-4321\n\
        main|web1|/log|app|a::1|ERROR x\n\
        null\n\
        null\n\
        main|web1|/log|app|a::1 user::ann|user=ann\n\
        main|web1|/log|app|a::1 user::ann user::ann|user=ann\n\
        main|web1|/log|app|a::1 named::ann|user=ann\n\
        main|web1|/log|app|a::1 |user=ann\n\
        main|web1|/log|app|user::ann|user=ann\n\
        main|web1|/log|app|a::1 was:a::1,is:user|user=ann\n\
        main|web1|/log|app|a::1|<<n=7>>\n\
        main|web1|/log|app|a::1 level::WARN|a WARN\n\
        main|web1|/log|app|a::1 level::none|a note\n\
        errors|web1|/log|app|a::1|ERROR\n\
        $0rest|web1|/log|app|a::1|note\n\
        main|bad|/log|app|a::1|ERROR\n\
        main|web1|/log|app|a::1|note\n\
        main|web1|/log|app|a::1|cut\n\
        main|web1|/log|app|a::1|abc3\n\
        main|web1|/log|app|a::1|abcd\n\
        main|web1|/log|app|a::1|x of \n\
        main|web1|/log|app|a::1|a.bcd.$\n\
        main|web1|/log|app|a::1|x\n\
        audit|web1|/log|app|a::1|sshd[311]: Accepted publickey for ann\n\
        main|web1|/log|app|a::1|app[311]: x\n\
        main|db7|/log|app|a::1|Nov 14 22:10:01 db7 sshd[311]: x\n\
        main|web1|/log|app|a::1 level::WARN named::ann|WARN user=ann slow\n";

#[test]
fn raw_texts_are_changed(rt: HostRuntime) {
    compare(&rt, outcomes(rt.alloc(), "", CHANGES), CHANGED);
}

#[test]
fn each_key_is_read_and_written(rt: HostRuntime) {
    compare(&rt, outcomes(rt.alloc(), KEYS, KEYED), BY_KEY);
}

#[test]
fn events_are_routed(rt: HostRuntime) {
    compare(&rt, outcomes(rt.alloc(), ROUTES, EVENTS), ROUTED);
}

const SIZES: &str = "[raw]\nREGEX = ^\nDEST_KEY = _raw\nFORMAT = $0$0\n\
    [meta]\nREGEX = ^\nDEST_KEY = _meta\nFORMAT = $0$0\n\
    [added]\nREGEX = ^\nWRITE_META = true\nFORMAT = $0\n\
    [index]\nREGEX = (.*)\nDEST_KEY = _MetaData:Index\nLOOKAHEAD = 5000\nFORMAT = $1\n\
    [host]\nREGEX = (.*)\nDEST_KEY = MetaData:Host\nLOOKAHEAD = 5000\nFORMAT = host::$1\n\
    [seen]\nREGEX = (.*)\nDEST_KEY = _MetaData:Index\nFORMAT = $1\n";

/// What an event with fields and a raw text of these lengths comes to by these transforms.
fn cut(
    alloc: Global,
    merged: &Merged,
    names: &str,
    meta: usize,
    raw: usize,
) -> Result<Routed, NoMemory> {
    let event = event(alloc, many(alloc, b'm', meta), many(alloc, b'r', raw));
    let seds = SedList::new(alloc);
    let routed = routed(alloc, &seds, merged, names, event);
    drop(seds);
    routed
}

fn put_size(text: &mut String, bytes: &Bytes) {
    put(text, " ");
    put(text, bytes.len());
}

/// Writes the lengths of index, host, indexed fields and raw text of an event that is kept.
fn put_sizes(text: &mut String, routed: &Routed) {
    if let Routed::To(event) = routed {
        put_size(text, &event.index);
        put_size(text, &event.host);
        put_size(text, &event.meta);
        put_size(text, &event.raw);
        put(text, "\n");
    }
}

/// Transforms, and the lengths of the indexed fields and the raw text before them.
static CUT: [(&str, usize, usize); 12] = [
    ("", 70_000, 8_388_609),
    ("raw", 0, 4_194_304),
    ("raw", 0, 4_194_305),
    ("meta", 32_767, 1),
    ("meta", 32_768, 1),
    ("added", 32_767, 1),
    ("added", 32_768, 1),
    ("index", 0, 4096),
    ("index", 0, 4097),
    ("host", 0, 4090),
    ("host", 0, 4091),
    ("seen", 0, 4097),
];

fn put_cuts(text: &mut String, alloc: Global, merged: &Merged) {
    for (names, meta, raw) in &CUT {
        put(text, *names);
        if let Ok(routed) = cut(alloc, merged, names, *meta, *raw) {
            put_sizes(text, &routed);
            drop(routed);
        }
    }
}

fn cuts_said(alloc: Global) -> String {
    let mut text = String::new(alloc);
    if let Ok(merged) = merged(alloc, SIZES) {
        put_cuts(&mut text, alloc, &merged);
        drop(merged);
    }
    text
}

#[test]
fn values_are_cut(rt: HostRuntime) {
    let wanted = " 4 4 70000 8388608\n\
        raw 4 4 0 8388608\nraw 4 4 0 8388608\n\
        meta 4 4 65534 1\nmeta 4 4 65535 1\n\
        added 4 4 65535 1\nadded 4 4 65535 1\n\
        index 4096 4 0 4096\nindex 4096 4 0 4097\n\
        host 4 4090 0 4090\nhost 4 4090 0 4091\n\
        seen 4096 4 0 4097\n";
    compare(&rt, cuts_said(rt.alloc()), wanted);
}
