//! The command that clap is given for a table.

ghost use Rattle.std.specs.Prelude.{◌≡◌, false, IfOk};
ghost use Rattle.clap.specs.Words.{app_of, rule_of};
ghost use Rattle.command_words.specs.Apps.{app_for, rule_by};
ghost use Rattle.command_words.specs.Given.{rows_seen};

use crate::rows::{Kind, Row};
use clap::{Arg, ArgAction, Command};
use std::alloc::{AllocError, Global};

/// The command that has these options, and no help. Its words are those behind its name.
pub(crate) fn command<'a>(
    alloc: Global,
    name: &'a str,
    rows: &[Row<'a>],
) -> Result<Command<'a>, AllocError>
    ensures { IfOk result (λ command. app_of command ≡ app_for name.now (rows_seen rows.now)) }
{
    let mut command = Command::new(alloc, name)
        .no_binary_name(true)
        .disable_help_flag(true);
    for row in rows {
        command = command.arg(row.arg(alloc))?;
    }
    Ok(command)
}

impl<'a> Row<'a> {
    fn arg(&self, alloc: Global) -> Arg<'a>
        ensures rule { rule_of result ≡ rule_by self.now.name.now self.now.kind }
        ensures local { result.global ≡ false }
    {
        let arg = Arg::new(alloc, self.name).long(self.name).help(self.help);
        match self.kind {
            Kind::Required => arg
                .value_name(self.value)
                .required(true)
                .action(ArgAction::Set),
            Kind::Optional => arg.value_name(self.value).action(ArgAction::Set),
            Kind::Flag => arg.action(ArgAction::SetTrue),
        }
    }
}
