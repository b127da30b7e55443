//! The words, read by the table of commands.

ghost use Rattle.std.specs.Prelude.{◌≡◌, ◌≢◌, ◌↔◌, IfOk, OnOk, Err, []};
ghost use Rattle.clap.specs.Words.{fault_of, subcommand_of, subcommand_rows_of, kind_of};
ghost use Rattle.clap.specs.Walk.{texts};
ghost use Rattle.indexd_cli.specs.Table.{table};
ghost use Rattle.indexd_cli.specs.Shown.{Asks, IsUsage};

use crate::invocation::{Invocation, UsageFault, order_in};
use crate::table::table;
use clap::error::ErrorKind;
use clap::{ArgMatches, Error};
use ix_base::{NoMemory, Text};
use std::alloc::Global;

fn refusal_of(error: &Error) -> UsageFault
    ensures { (result ≡ UsageFault.Usage) ↔ (kind_of error.now ≢ ErrorKind.OutOfMemory) }
{
    if error.kind() == ErrorKind::OutOfMemory {
        UsageFault::NoMemory
    } else {
        UsageFault::Usage
    }
}

/// What was found for the words, where `clap` takes them.
fn parse<'a>(alloc: Global, words: &'a [&'a str]) -> Result<ArgMatches<'a>, UsageFault>
    ensures taken { OnOk result (fault_of table (texts words.entry.now) ≡ []) }
    ensures rows { IfOk result (λ m. subcommand_rows_of m ≡ subcommand_of table (texts words.entry.now)) }
    ensures usage { result ≡ Err UsageFault.Usage → fault_of table (texts words.entry.now) ≢ [] }
{
    let Ok(command) = table(alloc) else {
        return Err(UsageFault::NoMemory);
    };
    match command.try_get_matches_from(words) {
        Ok(matches) => Ok(matches),
        Err(error) => Err(refusal_of(&error)),
    }
}

/// The order that the words give: those of the command line behind the program's name. `Usage`
/// comes exactly where they are not of the table of commands, or a number or a text is outside its
/// range.
pub fn read_words<'a>(alloc: Global, words: &'a [&'a str]) -> Result<Invocation<'a>, UsageFault>
    ensures asks { IfOk result (λ order. Asks order (texts words.entry.now)) }
    ensures usage { result ≡ Err UsageFault.Usage → IsUsage (texts words.entry.now) }
{
    let matches = parse(alloc, words)?;
    match order_in(&matches) {
        Some(order) => Ok(order),
        None => Err(UsageFault::Usage),
    }
}

/// The words, lent, as `read_words` takes them.
pub fn lend_words<'a>(alloc: Global, words: &'a [Text]) -> Result<Vec<&'a str>, NoMemory>
    ensures { IfOk result (λ lent. texts lent.items ≡ words.entry.now) }
{
    let mut lent = Vec::new(alloc);
    for word in words {
        lent.push(word.as_str())?;
    }
    Ok(lent)
}
