//! The one simple command that the arguments are parsed with.

ghost use Rattle.std.specs.Prelude.{◌≡◌, IfOk, false};
ghost use Rattle.clap.specs.Words.{app_of, rule_of};
ghost use Rattle.command_line.specs.Syntax as spec;

use clap::Arg;
use std::alloc::{AllocError, Global};

/// MODE, the four options with their defaults, and last ARGS. Every value is taken as text.
pub(crate) fn syntax<'a>(alloc: Global) -> Result<clap::Command<'a>, AllocError>
    ensures { IfOk result (λ command. app_of command ≡ spec.syntax) }
{
    clap::Command::new(alloc, "nestrun")
        .no_binary_name(true)
        .arg(Arg::new(alloc, "MODE").required(true))?
        .arg(option(alloc, "workers", "4"))?
        .arg(option(alloc, "chunk", "32"))?
        .arg(option(alloc, "sample", "4"))?
        .arg(option(alloc, "steps", "1000000"))?
        .arg(Arg::new(alloc, "ARGS").num_args(..))
}

/// An option that takes one value, and has this one where it isn't given.
fn option<'a>(alloc: Global, name: &'a str, default: &'a str) -> Arg<'a>
    ensures rule { rule_of result ≡ spec.option_rule name.entry.now default.entry.now }
    ensures local { result.global ≡ false }
{
    Arg::new(alloc, name).long(name).default_value(default)
}
