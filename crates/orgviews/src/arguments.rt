//! The program's arguments.
ghost use Rattle.std.specs.Prelude.{◌≡◌, ◌==◌, if◌then◌else◌};
ghost use Rattle.org_base.specs.declared.profile.Profile.TheVariants.{One, Two};
ghost use Rattle.org_wire.specs.declared.protocol.Protocol.TheVariants.{First, Second};

use clap::{Arg, ArgAction, Command, value_parser};
use org_base::Profile;
use org_wire::Protocol;
use std::alloc::{AllocError, Global};

// What `--version` says behind the name. A build can know neither the kit by which it is made nor the commit of its sources.
const VERSION: &str = "\
0.4.0
kit and commit: not known to a build; where a package has the file PROOF, that names both";

/// The arguments that the program takes.
pub fn command<'a>(alloc: Global) -> Result<Command<'a>, AllocError> {
    let at = Arg::new(alloc, "at")
        .long("at")
        .value_name("DATE TIME")
        .help("The moment at which views are asked for, as \"2024-02-28 10:30\"")
        .required(true)
        .action(ArgAction::Set);
    let idle = Arg::new(alloc, "idle")
        .long("idle")
        .value_name("K")
        .help("Background steps after each command, 0 to 1000")
        .value_parser(value_parser!(u64).range(0..=1000))
        .default_value("0")
        .action(ArgAction::Set);
    let profile = Arg::new(alloc, "profile")
        .long("profile")
        .value_name("N")
        .help("The profile that agendas follow, 1 or 2")
        .value_parser(value_parser!(u64).range(1..=2))
        .default_value("1")
        .action(ArgAction::Set);
    let protocol = Arg::new(alloc, "protocol")
        .long("protocol")
        .value_name("N")
        .help("What is spoken on the stream, 1 or 2; editors speak 2, which says where rows stand")
        .value_parser(value_parser!(u64).range(1..=2))
        .default_value("1")
        .action(ArgAction::Set);
    let files = Arg::new(alloc, "FILE")
        .help("Org files, added under these names before the first command")
        .num_args(0..)
        .action(ArgAction::Append);
    Command::new(alloc, "orgviews")
        .version(VERSION)
        .about(
            "Answers questions about Org files: commands on standard input, replies on standard output",
        )
        .arg(at)?
        .arg(idle)?
        .arg(profile)?
        .arg(protocol)?
        .arg(files)
}

/// The profile of a number: the second of 2, and else the first.
pub fn profile(number: u64) -> Profile
    ensures value { result ≡ (if number == 2 then Two else One) }
{
    if number == 2 {
        Profile::Two
    } else {
        Profile::One
    }
}

/// The protocol of a number: the second of 2, and else the first.
pub fn protocol(number: u64) -> Protocol
    ensures value { result ≡ (if number == 2 then Second else First) }
{
    if number == 2 {
        Protocol::Second
    } else {
        Protocol::First
    }
}
