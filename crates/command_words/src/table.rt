// The table of commands.
ghost use Rattle.std.specs.Prelude.{◌≡◌, false, [], IfOk};
ghost use Rattle.clap.specs.Words.{app_of, rule_of};
ghost use Rattle.clap.specs.declared.builder.command.Command.TheViews.{out-Command};
ghost use Rattle.command_words.specs.Shapes.{moment_rule, line_rule, session_shape, run_shape, table};

use clap::{Arg, Command, value_parser};
use std::alloc::{AllocError, Global};

/// `session [--moment N]` or `run [--moment N] LINE..`, without a program's name in front.
pub fn table<'a>(alloc: Global) -> Result<Command<'a>, AllocError>
    ensures { IfOk result (λ command. app_of command ≡ table) }
{
    Command::new(alloc, "vdsm")
        .no_binary_name(true)
        .subcommand_required(true)
        .subcommand(session(alloc)?)?
        .subcommand(run(alloc)?)
}

/// `session [--moment N]`
fn session<'a>(alloc: Global) -> Result<Command<'a>, AllocError>
    ensures shape { IfOk result (λ command. app_of command ≡ record { top = session_shape; subs = [] }) }
    ensures local { IfOk result (λ command. (out-Command command).has_globals ≡ false) }
{
    Command::new(alloc, "session").arg(moment(alloc))
}

/// `run [--moment N] LINE..`
fn run<'a>(alloc: Global) -> Result<Command<'a>, AllocError>
    ensures shape { IfOk result (λ command. app_of command ≡ record { top = run_shape; subs = [] }) }
    ensures local { IfOk result (λ command. (out-Command command).has_globals ≡ false) }
{
    Command::new(alloc, "run")
        .arg(moment(alloc))?
        .arg(line(alloc))
}

/// `--moment N`, N below 2^64.
fn moment<'a>(alloc: Global) -> Arg<'a>
    ensures rule { rule_of result ≡ moment_rule }
    ensures local { result.global ≡ false }
{
    Arg::new(alloc, "moment")
        .long("moment")
        .value_parser(value_parser!(u64))
}

/// `LINE..`, at least one.
fn line<'a>(alloc: Global) -> Arg<'a>
    ensures rule { rule_of result ≡ line_rule }
    ensures local { result.global ≡ false }
{
    Arg::new(alloc, "line").required(true).num_args(1..)
}
