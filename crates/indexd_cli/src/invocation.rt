//! What the words ask for, read from what `clap` found for them. `parse.rt` calls `order_in`.

ghost use Rattle.std.specs.Prelude.{◌≡◌, ◌≤◌, IfSome, option_map};
ghost use Rattle.clap.specs.Words.{first_of, found_of, rows_of, subcommand_rows_of};
ghost use Rattle.indexd_cli.specs.Values.{name_of, file_of, number_in, seconds_of};
ghost use Rattle.indexd_cli.specs.Orders.{given, where_given, is_set, preview_of, serve_of, range_of, export_of, thaw_of, selftest_of};
ghost use Rattle.indexd_cli.specs.Orders.{order_of, order_in};
ghost use Rattle.indexd_cli.specs.Shown.{shown};

use crate::values::{file_of, name_of, number_in, seconds_of};
use clap::ArgMatches;
use ix_base::Range;
use thiserror::Error;

/// Where bytes come from, as the words say it.
#[derive(Clone, Copy, Debug)]
pub struct Origin<'a> {
    /// 1 to 1,024 bytes.
    pub host: &'a str,
    /// 1 to 1,024 bytes.
    pub source: &'a str,
    /// 1 to 1,024 bytes; `None` leaves the choice to the settings.
    pub sourcetype: Option<&'a str>,
    /// Any text; `None` is the default index.
    pub index: Option<&'a str>,
}

/// A command with its values.
#[derive(Clone, Copy, Debug)]
pub enum Invocation<'a> {
    /// `preview`: shows the events of the input, or stores them.
    Preview {
        origin: Origin<'a>,
        /// Whether the events are stored.
        store: bool,
    },
    /// `btool`: lists the settings of a file.
    Btool {
        /// `props`, `transforms`, `indexes`, `inputs` or `zones`.
        file: &'a str,
    },
    /// `feed`: answers the requests of the input.
    Feed,
    /// `serve`: answers requests over the network.
    Serve {
        /// Where it listens.
        port: u16,
        /// How many connections it takes, 1 to 1,000,000.
        requests: u32,
    },
    /// `monitor`: reads what is new in the watched files.
    Monitor {
        /// Whether the channels of the files are ended.
        close: bool,
    },
    /// `buckets`: lists the buckets.
    Buckets,
    /// `export`: writes the events of an index.
    Export {
        /// Any text.
        index: &'a str,
        /// The times of the events.
        range: Range,
    },
    /// `roll`: rolls the hot buckets of an index.
    Roll {
        /// Any text.
        index: &'a str,
    },
    /// `thaw`: brings a bucket back from the archive.
    Thaw {
        /// Any text.
        index: &'a str,
        /// The number of the bucket.
        id: u64,
    },
    /// `tick`: a turn of housekeeping.
    Tick,
    /// `selftest`: runs the whole of the store on events that it makes.
    Selftest {
        /// What the cuts of the input are drawn from.
        seed: u64,
        /// How many events it makes, 1 to 1,000,000.
        count: u64,
    },
}

/// Why words give no order.
#[derive(Clone, Copy, Debug, PartialEq, Eq, Error)]
pub enum UsageFault {
    /// They are not of the table of commands, or a number or a text is outside its range.
    #[error("the words are no command")]
    Usage,
    /// There was no room in memory.
    #[error("there was no room in memory")]
    NoMemory,
}

/// The value of an option or a word.
fn text_of<'a>(matches: &ArgMatches<'a>, id: &str) -> Option<&'a str>
    ensures { option_map (λ s. s.now) result ≡ first_of id.now (rows_of (found_of matches.now)) }
{
    matches.get_str(id)
}

/// Whether a flag is given.
fn is_set(matches: &ArgMatches<'_>, id: &str) -> bool
    ensures { result ≡ is_set id.now (rows_of (found_of matches.now)) }
{
    match text_of(matches, id) {
        Some(text) => text == "true",
        None => false,
    }
}

fn name_at<'a>(matches: &ArgMatches<'a>, id: &str) -> Option<&'a str>
    ensures { option_map (λ s. s.now) result ≡ given name_of id.now (rows_of (found_of matches.now)) }
{
    let text = text_of(matches, id)?;
    name_of(text)
}

fn optional_name<'a>(matches: &ArgMatches<'a>, id: &str) -> Option<Option<&'a str>>
    ensures { option_map (option_map (λ s. s.now)) result ≡ where_given name_of id.now (rows_of (found_of matches.now)) }
{
    match text_of(matches, id) {
        Some(text) => Some(Some(name_of(text)?)),
        None => Some(None),
    }
}

fn file_at<'a>(matches: &ArgMatches<'a>, id: &str) -> Option<&'a str>
    ensures { option_map (λ s. s.now) result ≡ given file_of id.now (rows_of (found_of matches.now)) }
{
    let text = text_of(matches, id)?;
    file_of(text)
}

fn number_at(matches: &ArgMatches<'_>, id: &str, least: u64, most: u64) -> Option<u64>
    ensures value { result ≡ given (number_in least most) id.now (rows_of (found_of matches.now)) }
    ensures most { IfSome result (λ n. n ≤ most) }
{
    let text = text_of(matches, id)?;
    number_in(text, least, most)
}

fn optional_seconds(matches: &ArgMatches<'_>, id: &str) -> Option<Option<i64>>
    ensures { result ≡ where_given seconds_of id.now (rows_of (found_of matches.now)) }
{
    match text_of(matches, id) {
        Some(text) => Some(Some(seconds_of(text)?)),
        None => Some(None),
    }
}

#[tactic(auto, unfolding(crate::specs::Orders::preview_of))]
fn preview_of<'a>(matches: &ArgMatches<'a>) -> Option<Invocation<'a>>
    ensures { option_map shown result ≡ preview_of (rows_of (found_of matches.now)) }
{
    let host = name_at(matches, "host")?;
    let source = name_at(matches, "source")?;
    let sourcetype = optional_name(matches, "sourcetype")?;
    let index = text_of(matches, "index");
    let store = is_set(matches, "store");
    let origin = Origin {
        host,
        source,
        sourcetype,
        index,
    };
    Some(Invocation::Preview { origin, store })
}

#[tactic(auto, unfolding(crate::specs::Orders::serve_of))]
fn serve_of<'a>(matches: &ArgMatches<'a>) -> Option<Invocation<'a>>
    ensures { option_map shown result ≡ serve_of (rows_of (found_of matches.now)) }
{
    let port = number_at(matches, "port", 0, 65_535)? as u16;
    let requests = number_at(matches, "requests", 1, 1_000_000)? as u32;
    Some(Invocation::Serve { port, requests })
}

#[tactic(auto, unfolding(crate::specs::Orders::range_of))]
fn range_of(matches: &ArgMatches<'_>) -> Option<Range>
    ensures { result ≡ range_of (rows_of (found_of matches.now)) }
{
    let earliest = optional_seconds(matches, "earliest")?;
    let latest = optional_seconds(matches, "latest")?;
    Some(Range { earliest, latest })
}

#[tactic(auto, unfolding(crate::specs::Orders::export_of))]
fn export_of<'a>(matches: &ArgMatches<'a>) -> Option<Invocation<'a>>
    ensures { option_map shown result ≡ export_of (rows_of (found_of matches.now)) }
{
    let index = text_of(matches, "INDEX")?;
    let range = range_of(matches)?;
    Some(Invocation::Export { index, range })
}

#[tactic(auto, unfolding(crate::specs::Orders::thaw_of))]
fn thaw_of<'a>(matches: &ArgMatches<'a>) -> Option<Invocation<'a>>
    ensures { option_map shown result ≡ thaw_of (rows_of (found_of matches.now)) }
{
    let index = text_of(matches, "INDEX")?;
    let id = number_at(matches, "ID", 0, u64::MAX)?;
    Some(Invocation::Thaw { index, id })
}

#[tactic(auto, unfolding(crate::specs::Orders::selftest_of))]
fn selftest_of<'a>(matches: &ArgMatches<'a>) -> Option<Invocation<'a>>
    ensures { option_map shown result ≡ selftest_of (rows_of (found_of matches.now)) }
{
    let seed = number_at(matches, "SEED", 0, u64::MAX)?;
    let count = number_at(matches, "COUNT", 1, 1_000_000)?;
    Some(Invocation::Selftest { seed, count })
}

/// What a command of this name asks for, by what was found for its options and words.
#[tactic(auto, unfolding(crate::specs::Orders::order_of))]
fn order_of<'a>(name: &str, matches: &ArgMatches<'a>) -> Option<Invocation<'a>>
    ensures { option_map shown result ≡ order_of name.now (rows_of (found_of matches.now)) }
{
    match name {
        "preview" => preview_of(matches),
        "btool" => Some(Invocation::Btool {
            file: file_at(matches, "FILE")?,
        }),
        "feed" => Some(Invocation::Feed),
        "serve" => serve_of(matches),
        "monitor" => Some(Invocation::Monitor {
            close: is_set(matches, "close"),
        }),
        "buckets" => Some(Invocation::Buckets),
        "export" => export_of(matches),
        "roll" => Some(Invocation::Roll {
            index: text_of(matches, "INDEX")?,
        }),
        "thaw" => thaw_of(matches),
        "tick" => Some(Invocation::Tick),
        "selftest" => selftest_of(matches),
        _ => None,
    }
}

/// What the command that was found asks for.
pub fn order_in<'a>(matches: &ArgMatches<'a>) -> Option<Invocation<'a>>
    ensures { option_map shown result ≡ order_in (subcommand_rows_of matches.now) }
{
    let (name, inner) = matches.subcommand()?;
    order_of(name, inner)
}
