//! The commands of the program, made for `clap`. `parse.rt` has the words read by them.

ghost use Rattle.std.specs.Prelude.{◌≡◌, IfOk, Ok, false};
ghost use Rattle.clap.specs.Words.{App, Rule, app_of, rule_of, new_app, with_rule};
ghost use Rattle.clap.specs.declared.builder.command.Command.TheViews.{out-Command as fields_of};
ghost use Rattle.indexd_cli.specs.Table.{option_rule, flag_rule, word_rule, preview, btool, feed, serve, monitor, buckets, export, roll};
ghost use Rattle.indexd_cli.specs.Table.{thaw, tick, selftest, program, with_one, first_commands, next_commands, index_commands, table};

use clap::{Arg, ArgAction, Command};
use std::alloc::{AllocError, Global};

/// `--NAME VALUE`.
fn option<'a>(alloc: Global, name: &'a str, needed: bool) -> Arg<'a>
    ensures rule { rule_of result ≡ option_rule name.entry.now needed }
    ensures local { result.global ≡ false }
{
    Arg::new(alloc, name)
        .long(name)
        .required(needed)
        .action(ArgAction::Set)
}

/// `--NAME`.
fn flag<'a>(alloc: Global, name: &'a str) -> Arg<'a>
    ensures rule { rule_of result ≡ flag_rule name.entry.now }
    ensures local { result.global ≡ false }
{
    Arg::new(alloc, name).long(name).action(ArgAction::SetTrue)
}

/// A word that stands for itself.
fn word<'a>(alloc: Global, name: &'a str) -> Arg<'a>
    ensures rule { rule_of result ≡ word_rule name.entry.now }
    ensures local { result.global ≡ false }
{
    Arg::new(alloc, name).required(true).action(ArgAction::Set)
}

/// A command, before its words.
fn new_command<'a>(alloc: Global, name: &'a str) -> Result<Command<'a>, AllocError>
    ensures app { IfOk result (λ c. app_of c ≡ new_app name.entry.now) }
    ensures none_global { IfOk result (λ c. (fields_of c).has_globals ≡ false) }
{
    Ok(Command::new(alloc, name))
}

/// Both values, where both could be made.
fn both<A: Drop, B: Drop>(
    first: Result<A, AllocError>,
    second: Result<B, AllocError>,
) -> Result<(A, B), AllocError>
    ensures { IfOk result (λ made. (first ≡ Ok made.0) × (second ≡ Ok made.1)) }
{
    let first = first?;
    let second = second?;
    Ok((first, second))
}

/// With a word or an option, where the command could be made.
fn with_arg<'a>(
    made: Result<Command<'a>, AllocError>,
    arg: Arg<'a>,
) -> Result<Command<'a>, AllocError>
    requires local { arg.global ≡ false }
    requires none_global { IfOk made (λ c. (fields_of c).has_globals ≡ false) }
    ensures app { (app : App) → (rule : Rule) → rule_of arg.entry ≡ rule → IfOk made.entry (λ c. app_of c ≡ app) →
        IfOk result (λ c. app_of c ≡ with_rule app rule) }
    ensures none_global { IfOk result (λ c. (fields_of c).has_globals ≡ false) }
{
    match both(made, Ok(arg)) {
        Ok(parts) => parts.0.arg(parts.1),
        Err(fault) => Err(fault),
    }
}

/// With `--NAME VALUE`, where the command could be made.
fn with_option<'a>(
    alloc: Global,
    made: Result<Command<'a>, AllocError>,
    name: &'a str,
    needed: bool,
) -> Result<Command<'a>, AllocError>
    requires { IfOk made (λ c. (fields_of c).has_globals ≡ false) }
    ensures app { (app : App) → IfOk made.entry (λ c. app_of c ≡ app) →
        IfOk result (λ c. app_of c ≡ with_rule app (option_rule name.entry.now needed)) }
    ensures none_global { IfOk result (λ c. (fields_of c).has_globals ≡ false) }
{
    with_arg(made, option(alloc, name, needed))
}

/// With one more command, where both could be made. Each of these is handed on as it was made, and
/// `both` looks into them, so that no early return here has commands to let go.
fn with_command<'a>(
    above: Result<Command<'a>, AllocError>,
    made: Result<Command<'a>, AllocError>,
) -> Result<Command<'a>, AllocError>
    requires above_none_global { IfOk above (λ c. (fields_of c).has_globals ≡ false) }
    requires none_global { IfOk made (λ c. (fields_of c).has_globals ≡ false) }
    ensures app { (all : App) → (one : App) → IfOk above.entry (λ c. app_of c ≡ all) → IfOk made.entry (λ c. app_of c ≡ one) →
        IfOk result (λ c. app_of c ≡ with_one all one) }
    ensures none_global { IfOk result (λ c. (fields_of c).has_globals ≡ false) }
{
    match both(above, made) {
        Ok(parts) => parts.0.subcommand(parts.1),
        Err(fault) => Err(fault),
    }
}

#[tactic(auto, unfolding(crate::specs::Table::program))]
fn program<'a>(alloc: Global) -> Result<Command<'a>, AllocError>
    ensures app { IfOk result (λ c. app_of c ≡ program) }
    ensures none_global { IfOk result (λ c. (fields_of c).has_globals ≡ false) }
{
    let command = Command::new(alloc, "indexd")
        .no_binary_name(true)
        .disable_help_flag(true)
        .disable_help_subcommand(true)
        .disable_version_flag(true)
        .subcommand_required(true);
    Ok(command)
}

fn preview<'a>(alloc: Global) -> Result<Command<'a>, AllocError>
    ensures app { IfOk result (λ c. app_of c ≡ preview) }
    ensures none_global { IfOk result (λ c. (fields_of c).has_globals ≡ false) }
{
    let made = new_command(alloc, "preview");
    let made = with_option(alloc, made, "host", true);
    let made = with_option(alloc, made, "source", true);
    let made = with_option(alloc, made, "sourcetype", false);
    let made = with_option(alloc, made, "index", false);
    with_arg(made, flag(alloc, "store"))
}

/// A command that takes one word.
fn one_word<'a>(alloc: Global, name: &'a str, first: &'a str) -> Result<Command<'a>, AllocError>
    ensures app { IfOk result (λ c. app_of c ≡ with_rule (new_app name.entry.now) (word_rule first.entry.now)) }
    ensures none_global { IfOk result (λ c. (fields_of c).has_globals ≡ false) }
{
    with_arg(new_command(alloc, name), word(alloc, first))
}

/// A command that takes two words.
fn two_words<'a>(
    alloc: Global,
    name: &'a str,
    first: &'a str,
    second: &'a str,
) -> Result<Command<'a>, AllocError>
    ensures app { IfOk result (λ c. app_of c ≡ with_rule (with_rule (new_app name.entry.now) (word_rule first.entry.now))
        (word_rule second.entry.now)) }
    ensures none_global { IfOk result (λ c. (fields_of c).has_globals ≡ false) }
{
    with_arg(one_word(alloc, name, first), word(alloc, second))
}

fn serve<'a>(alloc: Global) -> Result<Command<'a>, AllocError>
    ensures app { IfOk result (λ c. app_of c ≡ serve) }
    ensures none_global { IfOk result (λ c. (fields_of c).has_globals ≡ false) }
{
    let made = new_command(alloc, "serve");
    let made = with_option(alloc, made, "port", true);
    with_option(alloc, made, "requests", true)
}

fn export<'a>(alloc: Global) -> Result<Command<'a>, AllocError>
    ensures app { IfOk result (λ c. app_of c ≡ export) }
    ensures none_global { IfOk result (λ c. (fields_of c).has_globals ≡ false) }
{
    let made = one_word(alloc, "export", "INDEX");
    let made = with_option(alloc, made, "earliest", false);
    with_option(alloc, made, "latest", false)
}

fn monitor<'a>(alloc: Global) -> Result<Command<'a>, AllocError>
    ensures app { IfOk result (λ c. app_of c ≡ monitor) }
    ensures none_global { IfOk result (λ c. (fields_of c).has_globals ≡ false) }
{
    with_arg(new_command(alloc, "monitor"), flag(alloc, "close"))
}

/// The program with its first commands: what is shown or listed from settings, and the requests of
/// the input.
fn first_commands<'a>(alloc: Global) -> Result<Command<'a>, AllocError>
    ensures app { IfOk result (λ c. app_of c ≡ first_commands) }
    ensures none_global { IfOk result (λ c. (fields_of c).has_globals ≡ false) }
{
    let made = with_command(program(alloc), preview(alloc));
    let made = with_command(made, one_word(alloc, "btool", "FILE"));
    with_command(made, new_command(alloc, "feed"))
}

/// With those behind them: requests over the network, the watched files, and the list of the
/// buckets.
fn next_commands<'a>(alloc: Global) -> Result<Command<'a>, AllocError>
    ensures app { IfOk result (λ c. app_of c ≡ next_commands) }
    ensures none_global { IfOk result (λ c. (fields_of c).has_globals ≡ false) }
{
    let made = with_command(first_commands(alloc), serve(alloc));
    let made = with_command(made, monitor(alloc));
    with_command(made, new_command(alloc, "buckets"))
}

/// With those behind them, which name an index.
fn index_commands<'a>(alloc: Global) -> Result<Command<'a>, AllocError>
    ensures app { IfOk result (λ c. app_of c ≡ index_commands) }
    ensures none_global { IfOk result (λ c. (fields_of c).has_globals ≡ false) }
{
    let made = with_command(next_commands(alloc), export(alloc));
    let made = with_command(made, one_word(alloc, "roll", "INDEX"));
    with_command(made, two_words(alloc, "thaw", "INDEX", "ID"))
}

/// The program with all its commands. They are added in parts, since a proof takes time for each
/// pair of calls in a body.
pub fn table<'a>(alloc: Global) -> Result<Command<'a>, AllocError>
    ensures app { IfOk result (λ c. app_of c ≡ table) }
    ensures none_global { IfOk result (λ c. (fields_of c).has_globals ≡ false) }
{
    let made = with_command(index_commands(alloc), new_command(alloc, "tick"));
    with_command(made, two_words(alloc, "selftest", "SEED", "COUNT"))
}
