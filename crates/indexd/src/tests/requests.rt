//! Worked examples of requests: what `feed` replies to those of its input, and what is stored then.

use crate::tests::exchanges::{BEGUN, Exchanges, feeds};
use crate::tests::runs::{DEFAULT, Files, NOON, PLAIN, calls_since, disk_of};
use crate::tests::steps::{Step, check, take_all};
use ix_disk::StopDisk;
use std::alloc::Global;
use std::process::Abort;

/// What is not committed yet is not acknowledged, but the question has it committed.
const ACKNOWLEDGED: Exchanges<'static> = "\
    PUT /channels/c¦¦{\"host\":\"h\",\"source\":\"s\"}¦201 Created¦{\"channel\":\"c\"}¶\
    POST /channels/c/blocks¦¦a¦200 OK¦{\"ack\":0,\"run\":1}¶\
    POST /channels/c/blocks¦¦\n¦200 OK¦{\"ack\":1,\"run\":1}¶\
    POST /channels/c/blocks¦¦b¦200 OK¦{\"ack\":2,\"run\":1}¶\
    POST /channels/c/end¦¦¦200 OK¦{\"ack\":3,\"run\":1}¶\
    POST /acks¦¦{\"run\":1,\"acks\":[0,3,4]}¦200 OK¦{\"acks\":[false,false,false]}¶\
    POST /acks¦¦{\"run\":1,\"acks\":[0,3,4]}¦200 OK¦{\"acks\":[true,true,false]}¶\
    POST /acks¦¦{\"run\":2,\"acks\":[0]}¦200 OK¦{\"acks\":[false]}";

const TWO: &str =
    "0: main\t1700000000.000000\th\ts\tunknown\t\ta\nmain\t1700000000.000000\th\ts\tunknown\t\tb\n";

static NUMBERED: [Step; 2] = [
    Step::Feed(PLAIN, ACKNOWLEDGED, "0", ""),
    Step::Run((NOON, "export main", PLAIN, ""), TWO),
];

/// Blocks are numbered, and acknowledged once they are committed.
#[test]
fn blocks_are_numbered_and_acknowledged(rt: HostRuntime) {
    check(&rt, rt.alloc(), &NUMBERED);
}

/// Two channels side by side, and then the listing.
const TWO_CHANNELS: Exchanges<'static> = "\
    PUT /channels/sys¦¦{\"host\":\"web1\",\"source\":\"/var/log/messages\",\"sourcetype\":\"syslog\"}¦201 Created¦{\"channel\":\"sys\"}¶\
    PUT /channels/web¦¦{\"host\":\"web1\",\"source\":\"/var/log/access.log\",\"sourcetype\":\"access_combined\"}¦201 Created¦{\"channel\":\"web\"}¶\
    POST /channels/sys/blocks¦¦Nov 14 22:10:01 web1 sshd[311]: Accepted publickey for ann\nNov 14 22:10:05 web1 kernel: eth0 up\n¦200 OK¦{\"ack\":0,\"run\":1}¶\
    POST /channels/web/blocks¦¦10.0.0.7 - - [14/Nov/2023:22:10:03 +0000] \"GET / HTTP/1.1\" 200 512\n¦200 OK¦{\"ack\":1,\"run\":1}¶\
    POST /channels/sys/end¦¦¦200 OK¦{\"ack\":2,\"run\":1}¶\
    POST /channels/web/end¦¦¦200 OK¦{\"ack\":3,\"run\":1}¶\
    GET /buckets¦¦¦200 OK¦index main stored 3 bytes 396 frozen 0\nbucket main hot_v1_0 hot 3 396\nevents settled 3 nulled 0 dropped 0\n";

pub(crate) const DATED: &str =
    "0: main\t1699999801.000000\tweb1\t/var/log/messages\tsyslog\t\tNov 14 22:10:01 web1 sshd[311]: Accepted publickey for ann\nmain\t1699999805.000000\tweb1\t/var/log/messages\tsyslog\t\tNov 14 22:10:05 web1 kernel: eth0 up\nmain\t1699999803.000000\tweb1\t/var/log/access.log\taccess_combined\t\t10.0.0.7 - - [14/Nov/2023:22:10:03 +0000] \"GET / HTTP/1.1\" 200 512\n";

/// The same, for other forms of the program.
pub(crate) const CHANNELS: Exchanges<'static> = TWO_CHANNELS;

static BESIDE: [Step; 2] = [
    Step::Feed(DEFAULT, TWO_CHANNELS, "0", ""),
    Step::Run((NOON, "export main", DEFAULT, ""), DATED),
];

#[test]
fn two_channels_are_stored(rt: HostRuntime) {
    check(&rt, rt.alloc(), &BESIDE);
}

const REFUSED: Exchanges<'static> = "\
    GET /nothing¦¦¦404 Not Found¦{\"error\":\"NoRoute\"}¶\
    DELETE /buckets¦¦¦405 Method Not Allowed¦{\"error\":\"WrongMethod\"}¶\
    POST /channels/c/blocks¦¦¦411 Length Required¦{\"error\":\"NoLength\"}¶\
    POST /channels/c/blocks¦Content-Encoding: gzip\r\n¦a¦415 Unsupported Media Type¦{\"error\":\"Encoded\"}¶\
    POST /channels/c/blocks¦¦a¦404 Not Found¦{\"error\":\"NoChannel\"}¶\
    POST /channels/c/end¦¦¦404 Not Found¦{\"error\":\"NoChannel\"}¶\
    PUT /channels/c¦¦{\"host\":\"h\",\"source\":\"s\"}¦201 Created¦{\"channel\":\"c\"}¶\
    PUT /channels/c¦¦{\"host\":\"h\",\"source\":\"s\"}¦409 Conflict¦{\"error\":\"ChannelOpen\"}¶\
    PUT /channels/d¦¦{\"host\":\"h\",\"source\":\"s\",\"index\":\"web\"}¦404 Not Found¦{\"error\":\"UnknownIndex\"}¶\
    PUT /channels/d¦¦{\"host\":\"h\"}¦400 Bad Request¦{\"error\":\"BadBody\"}¶\
    GET /indexes/web/events¦¦¦404 Not Found¦{\"error\":\"UnknownIndex\"}¶\
    GET /indexes/main/events?from=1¦¦¦400 Bad Request¦{\"error\":\"BadQuery\"}¶\
    POST /acks¦¦{}¦400 Bad Request¦{\"error\":\"BadBody\"}¶\
    GET /indexes/main/events¦¦¦200 OK¦";

const TOO_LONG: Exchanges<'static> =
    "POST /channels/c/blocks¦Content-Length: 1048577\r\n¦¦413 Payload Too Large¦{\"error\":\"TooLong\"}";

static UNREAD: [Step; 3] = [
    Step::Feed(PLAIN, REFUSED, "0", ""),
    Step::Feed(PLAIN, TOO_LONG, "12", "indexd: request 1 cannot be read\n"),
    Step::Run(
        (NOON, "feed", PLAIN, "GET /buckets HTTP/1.1\r\nHos"),
        "12: indexd: request 1 cannot be read\n",
    ),
];

/// Requests are refused, each with its reply, and a run ends at one whose end is not known.
#[test]
fn requests_are_refused(rt: HostRuntime) {
    check(&rt, rt.alloc(), &UNREAD);
}

static MANY: [Step; 1] = [Step::Send(PLAIN, 257, (0, 1), "256 1 1 ")];

/// 256 channels can be open, and a block has at most 1,048,576 bytes.
#[test]
fn limits_of_requests(rt: HostRuntime) {
    check(&rt, rt.alloc(), &MANY);
}

/// A line has 2,097,152 times its bytes.
const SWOLLEN: Files<'static> = "props:[default]\nSHOULD_LINEMERGE = false\n\
    SEDCMD-a = s/(.+)/\\1\\1\\1\\1\\1\\1\\1\\1/\n\
    SEDCMD-b = s/(.+)/\\1\\1\\1\\1\\1\\1\\1\\1/\n\
    SEDCMD-c = s/(.+)/\\1\\1\\1\\1\\1\\1\\1\\1/\n\
    SEDCMD-d = s/(.+)/\\1\\1\\1\\1\\1\\1\\1\\1/\n\
    SEDCMD-e = s/(.+)/\\1\\1\\1\\1\\1\\1\\1\\1/\n\
    SEDCMD-f = s/(.+)/\\1\\1\\1\\1\\1\\1\\1\\1/\n\
    SEDCMD-g = s/(.+)/\\1\\1\\1\\1\\1\\1\\1\\1/\n";

/// The first line has 4,194,304 bytes then, each of which is shown by four letters.
const LARGE: Exchanges<'static> = "\
    PUT /channels/c¦¦{\"host\":\"h\",\"source\":\"s\"}¦201 Created¦{\"channel\":\"c\"}¶\
    POST /channels/c/blocks¦¦\u{e9}\nb¦200 OK¦{\"ack\":0,\"run\":1}¶\
    GET /indexes/main/events¦¦¦413 Payload Too Large¦{\"error\":\"TooLong\"}¶\
    GET /indexes/main/events?latest=1700000000¦¦¦200 OK¦¶\
    POST /channels/c/end¦¦¦200 OK¦{\"ack\":1,\"run\":1}¶\
    GET /buckets¦¦¦200 OK¦index main stored 2 bytes 6291570 frozen 0\n\
    bucket main hot_v1_0 hot 2 6291570\nevents settled 2 nulled 0 dropped 0\n";

static SWELLING: [Step; 1] = [Step::Feed(SWOLLEN, LARGE, "0", "")];

/// The lines of a reply have at most 16,777,216 bytes. Where there are more, the run goes on.
#[test]
fn a_reply_of_too_many_lines_is_refused(rt: HostRuntime) {
    check(&rt, rt.alloc(), &SWELLING);
}

const UNACKNOWLEDGED: Exchanges<'static> = "\
    PUT /channels/c¦¦{\"host\":\"h\",\"source\":\"s\"}¦201 Created¦{\"channel\":\"c\"}¶\
    POST /channels/c/blocks¦¦x\ny\nz¦200 OK¦{\"ack\":0,\"run\":1}";

/// The run that drew the number has ended without it, so the block is sent again.
const SENT_AGAIN: Exchanges<'static> = "\
    POST /acks¦¦{\"run\":1,\"acks\":[0]}¦200 OK¦{\"acks\":[false]}¶\
    GET /indexes/main/events¦¦¦200 OK¦¶\
    POST /channels/c/blocks¦¦x\ny\nz¦200 OK¦{\"ack\":0,\"run\":2}¶\
    POST /acks¦¦{\"run\":2,\"acks\":[0]}¦200 OK¦{\"acks\":[false]}¶\
    POST /acks¦¦{\"run\":2,\"acks\":[0]}¦200 OK¦{\"acks\":[true]}";

const X_AND_Y: &str =
    "0: main\t1700000000.000000\th\ts\tunknown\t\tx\nmain\t1700000000.000000\th\ts\tunknown\t\ty\n";

static BEGINNING: [Step; 1] = [Step::Feed(PLAIN, BEGUN, "0", "")];

static AGAIN: [Step; 2] = [
    Step::Feed(PLAIN, SENT_AGAIN, "0", ""),
    Step::Run((NOON, "export main", PLAIN, ""), X_AND_Y),
];

/// How many calls of the disk a run makes that begins the channel.
fn calls_of_begin(rt: &impl Abort, alloc: Global) -> u64 {
    let mut disk = disk_of(alloc);
    take_all(rt, alloc, &mut disk, &BEGINNING);
    calls_since(&disk, 0)
}

/// A disk that fails behind so many calls, and what is sent then.
fn check_again(rt: &impl Abort, alloc: Global, calls: u64) {
    let mut stopped = StopDisk::new(disk_of(alloc), calls);
    let fault = ("5", "indexd: disk fault\n");
    feeds(rt, alloc, &mut stopped, (PLAIN, UNACKNOWLEDGED), fault);
    let mut disk = stopped.into_inner();
    take_all(rt, alloc, &mut disk, &AGAIN);
}

/// A disk that fails behind the reply to a block, before the block is committed, leaves the channel that was begun and nothing of the block.
#[test]
fn a_block_that_is_not_acknowledged_is_sent_again(rt: HostRuntime) {
    check_again(&rt, rt.alloc(), calls_of_begin(&rt, rt.alloc()));
}

const CUT: Files<'static> = "props:[default]\nSHOULD_LINEMERGE = false\nTRUNCATE = 2\n";

const OPEN: Exchanges<'static> = "\
    PUT /channels/c¦¦{\"host\":\"h\",\"source\":\"s\"}¦201 Created¦{\"channel\":\"c\"}¶\
    POST /channels/c/blocks¦¦x\nyyyy¦200 OK¦{\"ack\":0,\"run\":1}";

const ENDED: Exchanges<'static> =
    "POST /channels/c/blocks¦¦z¦404 Not Found¦{\"error\":\"NoChannel\"}";

static UNCUT: [Step; 4] = [
    Step::Feed(PLAIN, OPEN, "0", ""),
    Step::Run(
        (NOON, "buckets", CUT, ""),
        "0: index main stored 2 bytes 119 frozen 0\nbucket main hot_v1_0 hot 2 119\nevents settled 2 nulled 0 dropped 0\n",
    ),
    Step::Run(
        (NOON, "export main", CUT, ""),
        "0: main\t1700000000.000000\th\ts\tunknown\t\tx\nmain\t1700000000.000000\th\ts\tunknown\t\tyyyy\n",
    ),
    Step::Feed(CUT, ENDED, "0", ""),
];

/// Settings that change end the channel of a sender, under the old ones.
#[test]
fn settings_that_change_end_channels(rt: HostRuntime) {
    check(&rt, rt.alloc(), &UNCUT);
}

const LOST: Files<'static> = "indexes:[lost]\n";

const TO_LOST: Exchanges<'static> = "\
    PUT /channels/c¦¦{\"host\":\"h\",\"source\":\"s\",\"index\":\"lost\"}¦201 Created¦{\"channel\":\"c\"}¶\
    POST /channels/c/blocks¦¦a¦200 OK¦{\"ack\":0,\"run\":1}¶\
    POST /channels/c/end¦¦¦200 OK¦{\"ack\":1,\"run\":1}";

const RETIRED: Exchanges<'static> = "\
    PUT /channels/c¦¦{\"host\":\"h\",\"source\":\"s\",\"index\":\"lost\"}¦404 Not Found¦{\"error\":\"UnknownIndex\"}¶\
    GET /indexes/lost/events¦¦¦200 OK¦lost\t1700000000.000000\th\ts\tunknown\t\ta\n";

static RETIRING: [Step; 2] = [
    Step::Feed(LOST, TO_LOST, "0", ""),
    Step::Feed(DEFAULT, RETIRED, "0", ""),
];

/// An index that is gone from the settings takes no channel, and shows its events still.
#[test]
fn a_retired_index_takes_no_channel(rt: HostRuntime) {
    check(&rt, rt.alloc(), &RETIRING);
}
