//! The command that runs a script.
ghost use Rattle.std.specs.Prelude.{◌≡◌, IfNone, IfOk, IfSome, codes, false};
ghost use Rattle.clap.specs.Words.{app_of, found_of, rows_of};
ghost use Rattle.clap.specs.declared.Command.TheViews.{out-Command};
ghost use Rattle.nfsd_words.specs.declared.Args.{Args as Asked};
ghost use Rattle.nfsd_words.specs.Words.{Asks, first_of_sim, sim_command};

use crate::Args;
use clap::{Arg, ArgAction, ArgMatches, Command};
use std::alloc::{AllocError, Global};

// What the help tells of the script.
const SCRIPT: &str = "The file with the script: one command a line";

// And of its stops.
const STOPS: &str =
    "Tries each stop of the script: whatever a crash may leave there is opened and looked at";

/// What is asked for where the command is this one.
pub fn asked_sim<'a>(given: &ArgMatches<'a>) -> Option<Args<'a>>
    ensures asked { IfSome result (Asks (codes "sim") (rows_of (found_of given.now))) }
    ensures senseless { IfNone result ((args : Asked)
        → ¬ Asks (codes "sim") (rows_of (found_of given.now)) args) }
{
    Some(Args::Sim {
        script: given.get_str("SCRIPT")?,
        stops: given.get_flag("stops"),
    })
}

/// The command.
pub fn sim_words<'a>(alloc: Global) -> Result<Command<'a>, AllocError>
    ensures app { IfOk result (λ command. app_of command ≡ sim_command) }
    ensures local { IfOk result (λ command. (out-Command command).has_globals ≡ false) }
{
    sim_up_to_script(alloc)?.arg(
        Arg::new(alloc, "stops")
            .long("stops")
            .action(ArgAction::SetTrue)
            .help(STOPS),
    )
}

fn sim_up_to_script<'a>(alloc: Global) -> Result<Command<'a>, AllocError>
    ensures app { IfOk result (λ command. app_of command ≡ first_of_sim) }
    ensures local { IfOk result (λ command. (out-Command command).has_globals ≡ false) }
{
    Command::new(alloc, "sim")
        .about(
            "Runs the schedule of a script over an image in memory: calls of several workers, crashes and failures",
        )
        .arg(Arg::new(alloc, "SCRIPT").required(true).help(SCRIPT))
}
