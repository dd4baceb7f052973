// Commands and options with their help.
ghost use Rattle.std.specs.Prelude.{Some};
ghost use Rattle.clap.specs.Simple.{new_rule};
ghost use Rattle.clap.specs.Words.{new_app};
ghost use Rattle.clap.specs.declared.builder.action.ArgAction.TheVariants.{SetTrue};
ghost use Rattle.command_words.specs.CommandLine.{IsApp, IsRule};

use clap::{Arg, ArgAction, Command};
use std::alloc::Global;

/// The help of a command: what it is about, in a line and at length, and what is printed after its options, in short and at length.
#[derive(Clone, Copy)]
pub(crate) struct Help {
    pub(crate) about: &'static str,
    pub(crate) long_about: &'static str,
    pub(crate) after: &'static str,
    pub(crate) after_long: &'static str,
}

/// The command of this name with this help, which takes nothing so far.
pub(crate) fn command<'a>(alloc: Global, name: &'static str, help: Help) -> Command<'a>
    ensures { IsApp result (new_app name.now) }
{
    Command::new(alloc, name)
        .about(help.about)
        .long_about(help.long_about)
        .after_help(help.after)
        .after_long_help(help.after_long)
}

/// The option `--NAME` with its help, in a line and at length.
fn option<'a>(
    alloc: Global,
    name: &'static str,
    help: &'static str,
    long_help: &'static str,
) -> Arg<'a>
    ensures { IsRule result (record (new_rule name.now) { long = Some name.now }) }
{
    Arg::new(alloc, name)
        .long(name)
        .help(help)
        .long_help(long_help)
}

/// The option `--NAME VALUE`.
pub(crate) fn option_with<'a>(
    alloc: Global,
    name: &'static str,
    value: &'static str,
    help: &'static str,
    long_help: &'static str,
) -> Arg<'a>
    ensures { IsRule result (record (new_rule name.now) { long = Some name.now; value_names = 1 }) }
{
    option(alloc, name, help, long_help).value_name(value)
}

/// The option `--NAME` that takes no value.
pub(crate) fn flag<'a>(
    alloc: Global,
    name: &'static str,
    help: &'static str,
    long_help: &'static str,
) -> Arg<'a>
    ensures { IsRule result (record (new_rule name.now) { long = Some name.now; action = Some SetTrue }) }
{
    option(alloc, name, help, long_help).action(ArgAction::SetTrue)
}
