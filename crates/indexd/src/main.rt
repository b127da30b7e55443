//! The program `indexd`: the real input, output, clock, files of settings, disk and listener,
//! handed to the library that does all the work.
#![tactic(auto)]

#[cfg(test)]
mod tests;

use indexd_core::{Status, say, top};
use ix_base::{HostClock, StdSink, StdSource, Text};
use ix_disk::HostDisk;
use ix_fs::HostTree;
use ix_net::TcpListen;
use std::fs::{File, OpenOptions};
use std::io::ErrorKind;
use std::os::fd::AsRawFd;
use std::process::ExitCode;
use std::rt::Env;
use std::{env, io};

/// The number of the last of the three streams that every program is started with.
const LAST_STREAM: i32 = 2;

/// What the paths of files of settings begin with. A watched file that cannot be read is passed over,
/// and one of these is not.
const SETTINGS: &[u8] = b"etc/";

/// Opens the null device in place of each stream that the program was started without. The system
/// gives a file that is opened the lowest free number, so without this a file of the store would
/// take the number of a stream, and what is written to the stream would go into the file.
fn fill_streams(rt: &HostRuntime) -> io::Result<[Option<File>; 3]> {
    let mut kept = [None, None, None];
    for place in &mut kept {
        let open = OpenOptions::new()
            .read(true)
            .write(true)
            .open(rt, "/dev/null")?;
        if open.as_raw_fd() > LAST_STREAM {
            break;
        }
        *place = Some(open);
    }
    Ok(kept)
}

/// The words of the command line behind the program's name.
fn read_words<R: Env + AllocGlobal>(rt: &R) -> io::Result<Vec<Text>> {
    let mut words = Vec::new(rt.alloc());
    for word in env::args(rt)?.skip(1) {
        words.push(Text::from_string(word))?;
    }
    Ok(words)
}

fn main(rt: HostRuntime) -> ExitCode {
    let Ok(streams) = fill_streams(&rt) else {
        return ExitCode::from(Status::Output.code());
    };
    let mut output = StdSink::new(io::writer(&rt));
    let words = match read_words(&rt) {
        Ok(words) => words,
        Err(fault) if fault.kind() == ErrorKind::OutOfMemory => {
            say(Status::Memory, &mut output);
            return ExitCode::from(Status::Memory.code());
        }
        // Words that are no text are none, so they are refused as any other wrong ones.
        Err(_) => Vec::new(rt.alloc()),
    };
    let mut input = StdSource::new(rt.reader());
    let mut clock = HostClock::new(&rt);
    let mut tree = HostTree::passing_over(&rt, SETTINGS);
    let mut disk = HostDisk::new(rt.alloc(), &rt);
    let mut listener = TcpListen::new(rt.alloc(), &rt);
    let status = top(
        rt.alloc(),
        &words,
        &mut input,
        &mut output,
        &mut clock,
        &mut tree,
        &mut disk,
        &mut listener,
    );
    for it in tree.passed_over() {
        let _ = eprintln!(&rt; "indexd: {it}");
    }
    if let Some(fault) = tree.first_fault() {
        let _ = eprintln!(&rt; "indexd: {fault}");
    }
    if let Some(fault) = disk.first_fault() {
        let _ = eprintln!(&rt; "indexd: {fault}");
    }
    drop(streams);
    ExitCode::from(status.code())
}
