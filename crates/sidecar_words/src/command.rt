ghost use Rattle.std.specs.Prelude.{◌≡◌, false, IfOk};
ghost use Rattle.clap.specs.Words.{app_of, rule_of, with_rule};
ghost use Rattle.sidecar_words.specs.Command.{sidecar_app, option_of, flag_of, bare};

use clap::{Arg, ArgAction, Command};
use std::alloc::{AllocError, Global};

/// The command with the options and flags of the program, and none of its own.
pub(crate) fn command<'a>(alloc: Global) -> Result<Command<'a>, AllocError>
    ensures { IfOk result (λ command. app_of command ≡ sidecar_app) }
{
    bare(alloc)
        .arg(option(alloc, "app-id"))?
        .arg(option(alloc, "resources-path"))?
        .arg(option(alloc, "dapr-http-port"))?
        .arg(option(alloc, "app-port"))?
        .arg(option(alloc, "workers"))?
        .arg(option(alloc, "peers"))?
        .arg(option(alloc, "drill"))?
        .arg(flag(alloc, "stdio"))?
        .arg(flag(alloc, "check"))
}

fn bare<'a>(alloc: Global) -> Command<'a>
    ensures { app_of result ≡ bare }
{
    Command::new(alloc, "sidecar")
        .no_binary_name(true)
        .disable_help_flag(true)
        .disable_version_flag(true)
}

fn option<'a>(alloc: Global, name: &'a str) -> Arg<'a>
    ensures rule { rule_of result ≡ option_of name.now }
    ensures local { result.global ≡ false }
{
    Arg::new(alloc, name).long(name).action(ArgAction::Set)
}

fn flag<'a>(alloc: Global, name: &'a str) -> Arg<'a>
    ensures rule { rule_of result ≡ flag_of name.now }
    ensures local { result.global ≡ false }
{
    Arg::new(alloc, name).long(name).action(ArgAction::SetTrue)
}
