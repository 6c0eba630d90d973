//! The program's command line, as `clap` gets it.
ghost use Rattle.std.specs.Prelude.{◌≡◌, IfOk, false};
ghost use Rattle.clap.specs.Words.{App, app_of, rule_of};
ghost use Rattle.clap.specs.Built.{AddsInTurn, AddsSubcommand};
ghost use Rattle.clap.specs.declared.builder.command.Command.{Command as AnyCommand};
ghost use Rattle.clap.specs.declared.builder.command.Command.TheViews.{out-Command as fields_of};
ghost use Rattle.clap.specs.declared.builder.value_parser.ValueParser.TheVariants.{Unsigned};
ghost use Rattle.uu_line.specs.Commands.{program, without_subcommands};
ghost use Rattle.uu_line.specs.Internal.Tables.{app_for, rule_for, rule_formed, with_apps, with_rules};

use clap::builder::{ArgAction, ValueParser};
use clap::{Arg, Command};
use std::alloc::{AllocError, Global};

// An argument or an option.
struct Entry<'a> {
    id: &'a str,
    form: Form<'a>,
    required: bool,
    defaults: &'a [&'a str],
    shown: &'a str,
    help: &'a str,
}

// How an entry is written.
#[derive(Clone, Copy)]
enum Form<'a> {
    // An option of one letter.
    Letter(char),
    // An option of one letter, without a value.
    Switch(char),
    // An option of a name.
    Name(&'a str),
    // An option of a name, whose value is a second.
    Second(&'a str),
    // An option of a name, whose value is a job's number.
    After(&'a str),
    // An option of a name, whose value is a number of bytes.
    Most(&'a str),
    // An option of a name, without a value.
    Flag(&'a str),
    // An argument by its place.
    One,
    // An argument by its place, a job's number.
    Job,
    // The last arguments, any number of them.
    Any,
    // The last arguments, any number of them, each a job's number.
    Jobs,
    // The last arguments, one or more.
    Several,
}

// A subcommand.
struct Subcommand<'a> {
    name: &'a str,
    about: &'a str,
    entries: &'a [Entry<'a>],
}

// `-c FILE`
const CONFIG: Entry<'static> = Entry {
    id: "config",
    form: Form::Letter('c'),
    required: false,
    defaults: &[],
    shown: "FILE",
    help: "The settings file",
};

// `--at SECONDS`
const SECOND: Entry<'static> = Entry {
    id: "at",
    form: Form::Second("at"),
    required: false,
    defaults: &[],
    shown: "SECONDS",
    help: "The time to use as now, in seconds since 1970-01-01 UTC",
};

// `--as USER`
const USER: Entry<'static> = Entry {
    id: "as",
    form: Form::Name("as"),
    required: false,
    defaults: &["uucp"],
    shown: "USER",
    help: "The user who asks",
};

// `SYSTEM`, of a job
const SYSTEM: Entry<'static> = Entry {
    id: "system",
    form: Form::One,
    required: true,
    defaults: &[],
    shown: "SYSTEM",
    help: "The neighbour that the job is for",
};

// `SYSTEM`, of a call
const CALLED: Entry<'static> = Entry {
    id: "system",
    form: Form::One,
    required: true,
    defaults: &[],
    shown: "SYSTEM",
    help: "The neighbour that was called",
};

// `-g GRADE`
const GRADE: Entry<'static> = Entry {
    id: "grade",
    form: Form::Letter('g'),
    required: false,
    defaults: &["N"],
    shown: "GRADE",
    help: "The job's grade: 0-9, A-Z or a-z, from highest to lowest",
};

// `--once SYSTEM!NUMBER[!WORD]`
const ONCE: Entry<'static> = Entry {
    id: "once",
    form: Form::Name("once"),
    required: false,
    defaults: &[],
    shown: "SYSTEM!NUMBER[!WORD]",
    help: "Whose job this is, and its number there; it is queued only once",
};

// `JOB`
const JOB: Entry<'static> = Entry {
    id: "job",
    form: Form::Job,
    required: true,
    defaults: &[],
    shown: "JOB",
    help: "The job's number",
};

// `FROM`
const SOURCE: Entry<'static> = Entry {
    id: "from",
    form: Form::One,
    required: true,
    defaults: &[],
    shown: "FROM",
    help: "The file's name at the site that has it",
};

// `TO`
const TARGET: Entry<'static> = Entry {
    id: "to",
    form: Form::One,
    required: true,
    defaults: &[],
    shown: "TO",
    help: "The file's name at the site that gets it",
};

// `-s SYSTEM`, of a report of systems
const WANTED: Entry<'static> = Entry {
    id: "system",
    form: Form::Letter('s'),
    required: false,
    defaults: &[],
    shown: "SYSTEM",
    help: "Only this neighbour",
};

// `--spool WORD`
const SPOOL: Entry<'static> = Entry {
    id: "spool",
    form: Form::Name("spool"),
    required: false,
    defaults: &[],
    shown: "WORD",
    help: "The word for this spool; a new spool has another one",
};

// `-g GRADE`, of a bundle
const LOWEST: Entry<'static> = Entry {
    id: "grade",
    form: Form::Letter('g'),
    required: false,
    defaults: &["z"],
    shown: "GRADE",
    help: "Only jobs of this grade and higher: 0-9, A-Z or a-z, from highest to lowest",
};

// `--after JOB`
const AFTER: Entry<'static> = Entry {
    id: "job",
    form: Form::After("after"),
    required: false,
    defaults: &[],
    shown: "JOB",
    help: "Only jobs after this one, in order of grade and number",
};

// `--most BYTES`
const MOST: Entry<'static> = Entry {
    id: "most",
    form: Form::Most("most"),
    required: false,
    defaults: &[],
    shown: "BYTES",
    help: "At most this many bytes, but always one job",
};

// `--cost`
const COSTS: Entry<'static> = Entry {
    id: "cost",
    form: Form::Flag("cost"),
    required: false,
    defaults: &[],
    shown: "",
    help: "Prints the cost first",
};

// `--no-jobs`
const NO_JOBS: Entry<'static> = Entry {
    id: "no-jobs",
    form: Form::Flag("no-jobs"),
    required: false,
    defaults: &[],
    shown: "",
    help: "Leaves out the jobs",
};

// `SENDER`
const SENDER: Entry<'static> = Entry {
    id: "sender",
    form: Form::One,
    required: true,
    defaults: &[],
    shown: "SENDER",
    help: "The neighbour that the bundle is from",
};

// `SYSTEM..`
const ONWARD: Entry<'static> = Entry {
    id: "system",
    form: Form::Any,
    required: false,
    defaults: &[],
    shown: "SYSTEM",
    help: "The neighbours to which mail is passed on",
};

// What `--version` prints after the program's name: the release, and the version of the spool's
// tables. `scripts/check-tree` compares it with the file VERSION and with the tables.
const VERSION: &str = "1.0.0, spool version 4";

// The lines that `main` knows by their words, before `clap` reads them.
const BY_WORDS: &str = "The spool of a site:
  uuspool [-c <FILE>] init               Makes the spool, once
  uuspool [-c <FILE>] site               Prints the site's name, settings, folder, spool and log
  uuspool [-c <FILE>] vacuum             Gives back the room that its file no longer needs
  uuspool [-c <FILE>] renumber <NUMBER>  Gives the next job this number, or a later one
Many requests:
  uuspool [-c <FILE>] batch              Reads requests from standard input and answers each in turn";

// The options of the whole command.
static OPTIONS: [Entry<'static>; 3] = [CONFIG, SECOND, USER];

// The subcommands, in the order in which help lists them.
static SUBCOMMANDS: [Subcommand<'static>; 28] = [
    Subcommand {
        name: "load",
        about: "Reads a sys file from standard input and defines its systems",
        entries: &[],
    },
    Subcommand {
        name: "drop",
        about: "Removes a system, if no job waits for it",
        entries: &[Entry {
            id: "system",
            form: Form::One,
            required: true,
            defaults: &[],
            shown: "SYSTEM",
            help: "The neighbour to remove",
        }],
    },
    Subcommand {
        name: "send",
        about: "Queues standard input as a file for a system",
        entries: &[SYSTEM, SOURCE, TARGET, GRADE, ONCE],
    },
    Subcommand {
        name: "request",
        about: "Queues a request for a file from a system",
        entries: &[SYSTEM, SOURCE, TARGET, GRADE, ONCE],
    },
    Subcommand {
        name: "exec",
        about: "Queues a command for a system, with standard input as its input",
        entries: &[
            GRADE,
            ONCE,
            SYSTEM,
            Entry {
                id: "command",
                form: Form::One,
                required: true,
                defaults: &[],
                shown: "COMMAND",
                help: "The command to run on the system",
            },
            Entry {
                id: "argument",
                form: Form::Any,
                required: false,
                defaults: &[],
                shown: "ARG",
                help: "The command's arguments; put `--` before one that begins with a hyphen",
            },
        ],
    },
    Subcommand {
        name: "mail",
        about: "Queues standard input as a mail message",
        entries: &[
            GRADE,
            ONCE,
            Entry {
                id: "address",
                form: Form::Several,
                required: true,
                defaults: &[],
                shown: "ADDRESS",
                help: "A bang path; all begin with the same neighbour",
            },
        ],
    },
    Subcommand {
        name: "list",
        about: "Lists the jobs, the highest grade first",
        entries: &[
            Entry {
                id: "system",
                form: Form::Letter('s'),
                required: false,
                defaults: &[],
                shown: "SYSTEM",
                help: "Only jobs for this neighbour",
            },
            Entry {
                id: "user",
                form: Form::Letter('u'),
                required: false,
                defaults: &[],
                shown: "USER",
                help: "Only jobs of this user",
            },
        ],
    },
    Subcommand {
        name: "show",
        about: "Shows a job and its bytes",
        entries: &[JOB],
    },
    Subcommand {
        name: "kill",
        about: "Removes a job",
        entries: &[JOB],
    },
    Subcommand {
        name: "regrade",
        about: "Gives a job another grade",
        entries: &[
            JOB,
            Entry {
                id: "grade",
                form: Form::One,
                required: true,
                defaults: &[],
                shown: "GRADE",
                help: "The job's new grade: 0-9, A-Z or a-z, from highest to lowest",
            },
        ],
    },
    Subcommand {
        name: "rejuvenate",
        about: "Marks a job as queued now",
        entries: &[JOB],
    },
    Subcommand {
        name: "due",
        about: "Lists the systems to call now, each with its next job",
        entries: &[Entry {
            id: "system",
            form: Form::Letter('s'),
            required: false,
            defaults: &[],
            shown: "SYSTEM",
            help: "All jobs for this neighbour that may go now",
        }],
    },
    Subcommand {
        name: "when",
        about: "Lists when each system can next be called, for which job, and why not before",
        entries: &[
            WANTED,
            Entry {
                id: "all",
                form: Form::Switch('a'),
                required: false,
                defaults: &[],
                shown: "",
                help: "All systems, with a job or without one",
            },
        ],
    },
    Subcommand {
        name: "queues",
        about: "Lists how many jobs wait for each system, and their size",
        entries: &[WANTED],
    },
    Subcommand {
        name: "status",
        about: "Lists the systems and how their last calls went",
        entries: &[],
    },
    Subcommand {
        name: "systems",
        about: "Prints the definitions of the systems as a sys file",
        entries: &[WANTED],
    },
    Subcommand {
        name: "failed",
        about: "Notes that a call to a system failed, and why",
        entries: &[
            CALLED,
            Entry {
                id: "why",
                form: Form::One,
                required: true,
                defaults: &[],
                shown: "WHY",
                help: "Why it failed, in one word",
            },
        ],
    },
    Subcommand {
        name: "done",
        about: "Notes that a call to a system succeeded, and removes the jobs that it carried",
        entries: &[
            CALLED,
            Entry {
                id: "job",
                form: Form::Jobs,
                required: false,
                defaults: &[],
                shown: "JOB",
                help: "The numbers of the jobs that the call carried",
            },
        ],
    },
    Subcommand {
        name: "forget",
        about: "Forgets which jobs with numbers below NUMBER came from a system",
        entries: &[
            Entry {
                id: "system",
                form: Form::One,
                required: true,
                defaults: &[],
                shown: "SYSTEM",
                help: "The neighbour that handed the jobs on",
            },
            Entry {
                id: "job",
                form: Form::Job,
                required: true,
                defaults: &[],
                shown: "NUMBER",
                help: "The lowest number that the neighbour may still hand on",
            },
        ],
    },
    Subcommand {
        name: "pack",
        about: "Prints a bundle for a system: jobs that wait for it, and which of its jobs are here",
        entries: &[
            Entry {
                id: "system",
                form: Form::One,
                required: true,
                defaults: &[],
                shown: "SYSTEM",
                help: "The neighbour that the bundle is for",
            },
            LOWEST,
            SPOOL,
            AFTER,
            MOST,
            NO_JOBS,
        ],
    },
    Subcommand {
        name: "unpack",
        about: "Reads a bundle from standard input and queues its jobs, each only once",
        entries: &[SENDER, ONWARD],
    },
    Subcommand {
        name: "settle",
        about: "Reads a bundle from standard input and removes the jobs that its sender has",
        entries: &[
            Entry {
                id: "system",
                form: Form::One,
                required: true,
                defaults: &[],
                shown: "SYSTEM",
                help: "The neighbour that the bundle is from",
            },
            SPOOL,
        ],
    },
    Subcommand {
        name: "answer",
        about: "Reads a bundle from standard input and prints the bundle that answers it",
        entries: &[SENDER, ONWARD, LOWEST, SPOOL, AFTER, MOST, NO_JOBS],
    },
    Subcommand {
        name: "map",
        about: "Reads map entries from standard input and keeps them",
        entries: &[],
    },
    Subcommand {
        name: "neighbours",
        about: "Lists the links in the map entry of a host",
        entries: &[Entry {
            id: "host",
            form: Form::One,
            required: true,
            defaults: &[],
            shown: "HOST",
            help: "The host of the map entry",
        }],
    },
    Subcommand {
        name: "name",
        about: "Prints the name of this site",
        entries: &[],
    },
    Subcommand {
        name: "route",
        about: "Prints the cheapest route to a host, by the map",
        entries: &[
            COSTS,
            Entry {
                id: "host",
                form: Form::One,
                required: true,
                defaults: &[],
                shown: "HOST",
                help: "The host to reach",
            },
        ],
    },
    Subcommand {
        name: "routes",
        about: "Prints the cheapest route to each host, by the map",
        entries: &[COSTS],
    },
];

/// The whole command: its options, and its subcommands, of which one has to be there.
pub(crate) fn program_command<'a>(alloc: Global) -> Result<Command<'a>, AllocError>
    ensures { IfOk result (λ command. app_of command ≡ program) }
{
    match with_options(alloc) {
        Ok(command) => match commands_of(alloc, &SUBCOMMANDS) {
            Ok(subcommands) => command.subcommands(subcommands),
            Err(error) => Err(error),
        },
        Err(error) => Err(error),
    }
}

// The command with only its options.
fn with_options<'a>(alloc: Global) -> Result<Command<'a>, AllocError>
    ensures { IfOk result (λ command. app_of command ≡ without_subcommands) }
{
    let bare = Command::new(alloc, "uuspool")
        .about("The job spool of a UUCP site")
        .version(VERSION)
        .after_help(BY_WORDS)
        .no_binary_name(true)
        .subcommand_required(true);
    with_entries(alloc, bare, &OPTIONS)
}

// The subcommands of these rows.
fn commands_of<'a>(alloc: Global, rows: &[Subcommand<'a>]) -> Result<Vec<Command<'a>>, AllocError>
    ensures { IfOk result (λ commands. (old new : AnyCommand) (whole : App) → app_of old ≡ whole
        → AddsInTurn AddsSubcommand old commands.items new → app_of new ≡ with_apps whole rows.now) }
{
    let mut commands = Vec::new(alloc);
    for row in rows {
        match command_of(alloc, row) {
            Ok(command) => commands.push(command)?,
            Err(error) => return Err(error),
        }
    }
    Ok(commands)
}

// A subcommand with its entries.
fn command_of<'a>(alloc: Global, subcommand: &Subcommand<'a>) -> Result<Command<'a>, AllocError>
    ensures app { IfOk result (λ command. app_of command ≡ app_for subcommand.now) }
    ensures local { IfOk result (λ command. (fields_of command).has_globals ≡ false) }
{
    let bare = Command::new(alloc, subcommand.name).about(subcommand.about);
    with_entries(alloc, bare, subcommand.entries)
}

// The command with these entries added.
fn with_entries<'a>(
    alloc: Global,
    mut command: Command<'a>,
    entries: &[Entry<'a>],
) -> Result<Command<'a>, AllocError>
    ensures app { (whole : App) → app_of command.entry ≡ whole → IfOk result (λ more. app_of more ≡ with_rules whole entries.now) }
    ensures local { (fields_of command.entry).has_globals ≡ false → IfOk result (λ more. (fields_of more).has_globals ≡ false) }
{
    for entry in entries {
        command = command.arg(argument_of(alloc, entry))?;
    }
    Ok(command)
}

// The argument or option of an entry.
fn argument_of<'a>(alloc: Global, entry: &Entry<'a>) -> Arg<'a>
    ensures rule { rule_of result ≡ rule_for entry.now }
    ensures local { result.global ≡ false }
{
    formed(alloc, entry.id, entry.form)
        .required(entry.required)
        .default_values(entry.defaults)
        .value_name(entry.shown)
        .help(entry.help)
}

// An argument or option of this id and form. Each arm begins its own, because one that lives across
// a choice costs much proof time.
fn formed<'a>(alloc: Global, id: &'a str, form: Form<'a>) -> Arg<'a>
    ensures rule { rule_of result ≡ rule_formed form.entry id.entry.now }
    ensures local { result.global ≡ false }
{
    match form {
        Form::Letter(letter) => Arg::new(alloc, id).short(letter),
        Form::Switch(letter) => Arg::new(alloc, id).short(letter).action(ArgAction::SetTrue),
        Form::Name(name) => Arg::new(alloc, id).long(name),
        Form::Second(name) => Arg::new(alloc, id).long(name).value_parser(second()),
        Form::After(name) => Arg::new(alloc, id).long(name).value_parser(job()),
        Form::Most(name) => Arg::new(alloc, id).long(name).value_parser(size()),
        Form::Flag(name) => Arg::new(alloc, id).long(name).action(ArgAction::SetTrue),
        Form::One => Arg::new(alloc, id),
        Form::Job => Arg::new(alloc, id).value_parser(job()),
        Form::Any => Arg::new(alloc, id).num_args(0..),
        Form::Jobs => Arg::new(alloc, id).num_args(0..).value_parser(job()),
        Form::Several => Arg::new(alloc, id).num_args(1..),
    }
}

// The numbers that jobs may have.
fn job<'a>() -> ValueParser<'a>
    ensures { result ≡ Unsigned 0 4_294_967_295 }
{
    clap::value_parser!(u64).range(0..=4_294_967_295)
}

// The numbers of bytes that a line may give.
fn size<'a>() -> ValueParser<'a>
    ensures { result ≡ Unsigned 1 4_294_967_295 }
{
    clap::value_parser!(u64).range(1..=4_294_967_295)
}

// The seconds that a line may give.
fn second<'a>() -> ValueParser<'a>
    ensures { result ≡ Unsigned 0 9_999_999_999 }
{
    clap::value_parser!(u64).range(0..=9_999_999_999)
}
