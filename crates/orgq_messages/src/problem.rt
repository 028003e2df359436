//! Why nothing is answered.

use crate::commands::CommandName;
use crate::environment::Variable;
use crate::exit::BAD_ARGUMENTS;
use crate::standard_error::{out_of_memory, say, visible_text};
use org_base::{Code, Fault};
use std::alloc::AllocError;
use unicode_width::UnicodeWidthStr;

/// Why nothing is answered.
#[derive(Clone, Copy, Debug)]
pub enum Problem {
    /// A form is asked for that what `done` and `set` print doesn't have.
    ActForm,
    /// All headings of which an expression holds are meant, and there is no expression.
    All,
    Background,
    Block,
    /// Blocked tasks are asked for, and some projects.
    BlockedBeside,
    /// The category of `--category` has a quotation mark.
    Category,
    /// Bars are asked for in a form that they don't have.
    Chart,
    Clock,
    /// A form is asked for that the acts of `clock` don't have.
    ClockForm,
    Color,
    /// A word is no command; one may be meant.
    Command(Option<CommandName>),
    /// The file of settings can't be read.
    Config,
    /// A form is asked for that what `config` prints doesn't have.
    ConfigForm,
    Date,
    /// Options of a day in sections stand in front of a command that shows none.
    DayOf,
    Days,
    DaysOf,
    DaysToo,
    /// Efforts that are summed are chosen by.
    EffortOf,
    /// A range of efforts that there isn't.
    Efforts,
    /// A word to look for is empty.
    EmptyWord,
    /// A variable of the environment isn't UTF-8.
    Environment(Variable),
    /// Fields between commas are asked for, and there are none of what is asked.
    Fields,
    /// A file and a heading below which another one goes.
    FileBeside,
    Files,
    /// What chooses rows stands before a command that chooses none.
    FilterOf,
    /// Options of some commands stand before follow.
    FollowFront,
    /// What standard input says is asked for again and again.
    FollowInput,
    /// A command stands behind follow that has no view.
    FollowOf,
    /// A template has a brace alone, or a name that no member has.
    Format,
    /// A template and another form.
    FormatBeside,
    From,
    /// The hours of several days are asked for.
    Grid,
    /// Some rows of a picture are asked for.
    GridLimit,
    /// A picture's rows are asked for in another order, or in groups.
    GridOrder,
    /// Groups are asked for by something else than there is.
    GroupBy,
    /// A calendar for other programs is asked for in another form.
    Ical,
    Lead,
    /// The template of a link has a brace alone, or a name that no place has.
    Link,
    /// A form is asked for that what a command prints that changes files doesn't have.
    LineForm,
    /// A word to look for has a line feed.
    LineFeed,
    /// A keyword stands behind several headings.
    KeywordBehind,
    LimitOf,
    /// A word names no drawer.
    LogDrawer,
    /// A word doesn't say how something is logged.
    LogHow,
    List,
    /// More headings are named than are changed at once.
    Many,
    /// More words are named than are looked for at once.
    ManyWords,
    Moment,
    /// A name of a text on standard input, and there is none.
    Name,
    /// No date stands behind the place of a heading.
    NoDate,
    /// No keyword stands behind the place of a heading.
    NoKeyword,
    /// No note stands behind the place of a heading.
    NoNote,
    /// No priority stands behind the place of a heading.
    NoPriority,
    /// No property stands behind the place of a heading.
    NoProperty,
    /// No tag stands behind the place of a heading.
    NoTag,
    /// No word is named to look for.
    NoWord,
    /// A note would be read as something else.
    Note,
    /// Not one file is named where one is written.
    OneFile,
    /// A word says no date that a heading can get.
    OneDate,
    /// A word with two hyphens in front names no option of its command.
    Option,
    Order,
    /// An order or groups of what has no rows, or rows that stand as they are.
    OrderOf,
    /// A page is asked for in another form.
    Page,
    /// What stands between slashes is no pattern.
    Pattern,
    /// A word is no place of a heading.
    Place,
    /// A heading is named twice.
    PlaceBeside,
    /// Properties in another form than JSON, or without names.
    Properties,
    /// What is for rows, of a command that has none.
    RowsAlone,
    Severity,
    Since,
    SinceBeside,
    SinceDays,
    SinceMoment,
    /// A key of an order that there isn't.
    Sort,
    /// An order names a key twice.
    SortTwice,
    /// A shell isn't known.
    Shell,
    /// The name is that of a property which no drawer gives.
    SpecialProperty,
    /// No variable of the environment says where histories of acts lie.
    State,
    Step,
    Tables,
    Tag,
    To,
    /// Rows are asked for in two forms.
    TwoForms,
    /// A calendar is asked for of something else than a month, a week or a year.
    View,
    /// The file of views can't be read.
    ViewFile,
    /// A form is asked for that views don't have.
    ViewForm,
    /// A word says no minutes.
    Within,
    /// Neither yes nor no is said of words at the end of a title.
    Words,
    Zone,
    Fault(Fault),
}

impl From<Fault> for Problem {
    fn from(fault: Fault) -> Problem {
        Problem::Fault(fault)
    }
}

impl From<AllocError> for Problem {
    fn from(refused: AllocError) -> Problem {
        Problem::Fault(Fault::from(refused))
    }
}

impl Problem {
    /// What standard error says of it.
    fn why(self) -> &'static str {
        match self {
            Problem::ActForm => "done and set print lines: --json and --csv are no forms of theirs",
            Problem::All => "--all goes with --match",
            Problem::Background => "--background is dark or light",
            Problem::Block => NO_BLOCK,
            Problem::BlockedBeside =>
                "--blocked shows tasks, and goes neither with --stuck nor with --all",
            Problem::Category => "a category of --category has no quotation mark in it",
            Problem::Chart => "--chart has lines alone, without -n, --json, --csv and --format",
            Problem::Clock => {
                "neither clock nor time zone can be read (TZ, /etc/localtime): --at names the moment"
            }
            Problem::ClockForm => {
                "clock in, out and cancel print lines: --json, --csv and --format are no forms of theirs"
            }
            Problem::Color => "--color is auto, always or never",
            Problem::Command(_) => NO_COMMAND,
            Problem::Config => {
                "the file of settings, orgq/config in XDG_CONFIG_HOME or ~/.config, can't be read as a file of UTF-8"
            }
            Problem::ConfigForm =>
                "config has lines alone, without -n, --json, --csv and --days-too",
            Problem::Date => {
                "no such date; there are today, tomorrow, yesterday, mon to sun, eow, eom, eoy, such as +3d, -1w, dec 24, 24.12., 2024-02-28, and the blocks week, nextweek, lastweek, month and so on, 2024-W09, 2024-02"
            }
            Problem::DayOf =>
                "--plain, --lines and --ascii in front are for the agenda, --columns for a calendar too",
            Problem::Days => "days past 9999-12-31",
            Problem::DaysOf => "-d is an option of agenda, ical, next and page",
            Problem::DaysToo => "--days-too is for --json",
            Problem::EffortOf =>
                "of a clock table efforts are sums: --effort before it chooses none",
            Problem::Efforts =>
                "--effort takes a range of efforts, as -0:30, 0:30-2:00, 1:00- or 0:45",
            Problem::EmptyWord => "search looks for no empty word",
            Problem::Environment(variable) => variable.why(),
            Problem::Fields => "--csv is no form of check, which has lines and --json",
            Problem::FileBeside => "--under names the file too: without -f",
            Problem::OneFile =>
                "add writes one file: -f FILE, --under FILE:LINE, or an inbox, by --inbox or in the file config",
            Problem::Files =>
                "no files: name them by -f, ORGQ_FILES, ~/.config/orgq/config or ~/.config/orgq/files",
            Problem::FilterOf =>
                "--match, --tag, --category and --effort are options of agenda, calendar, clocks, habits, ical, log, match, next, projects, search and todo, and but for --effort of clock",
            Problem::FollowFront => "files without -f and options of rows stand after follow",
            Problem::FollowInput =>
                "follow reads files again and again, and standard input only once",
            Problem::FollowOf => {
                "follow shows agenda, calendar, todo, match, search, projects, habits, clock, clocks, log, next, keywords, tags or check, and no other command"
            }
            Problem::Format => NO_FORMAT,
            Problem::FormatBeside => "--format goes neither with --json nor with --csv nor with -n",
            Problem::Grid => "--grid shows one day",
            Problem::GridLimit => "--grid shows all rows of a day, without --limit",
            Problem::GridOrder => "--grid shows rows by their times, without --sort and --group-by",
            Problem::GroupBy => {
                "--group-by is file, path, tag, category, keyword, priority or day"
            }
            Problem::Ical => "ical has one form, without -n, --json, --csv and --format",
            Problem::From => "--from names the first day in place of a block",
            Problem::Lead => "--lead wants --since",
            Problem::Link =>
                "--link has places in braces, {file}, {name}, {line} and {before}, and other braces twice",
            Problem::KeywordBehind => "of several headings --keyword names the keyword",
            Problem::LineForm => "this command prints lines: --json and --csv are no forms of its",
            Problem::LineFeed =>
                "a word of search has no line feed: it is looked for in each line alone",
            Problem::LogDrawer =>
                "--log-into-drawer is no, yes, or the name of a drawer, without white space and colons",
            Problem::LogHow => "--log-done and --log-repeat are no, time or note",
            Problem::LimitOf =>
                "--limit is an option of agenda, clock, clocks, habits, ical, log, match, next, projects, search and todo",
            Problem::List => {
                "the list of files, orgq/files in XDG_CONFIG_HOME or ~/.config, can't be read as a file of UTF-8"
            }
            Problem::Many => "no more than 1,000 headings are changed at once",
            Problem::ManyWords => "search looks for no more than 32 words and patterns",
            Problem::Moment => {
                "no such moment: --at takes one as \"2024-02-28 10:30\" or \"tomorrow 9:00\""
            }
            Problem::Name => "--name names the text of -f -",
            Problem::Note =>
                "a note has lines of text, none of which would be read as a drawer, a block, a setting, a comment or a clock",
            Problem::NoDate => "schedule and deadline take a date or none: schedule FILE:LINE DATE",
            Problem::OneDate => NO_DATE,
            Problem::NoKeyword => "set takes a keyword: set FILE:LINE KEYWORD",
            Problem::NoNote => "note takes a note: note FILE:LINE TEXT",
            Problem::NoPriority => "priority takes a priority or none: priority FILE:LINE A",
            Problem::NoProperty =>
                "property takes a name and a value: property FILE:LINE NAME=VALUE",
            Problem::NoTag => "tag takes tags that come or go: tag FILE:LINE +TAG -TAG",
            Problem::NoWord => "search wants a word to look for: search WORD ..",
            Problem::Pattern => {
                "a pattern between slashes is refused: patterns are those of the regex crate, of at most some size"
            }
            Problem::Place =>
                "a heading is named by FILE:LINE, as -n prints it, by a short id, as -i prints it, or by --match",
            Problem::PlaceBeside => "a heading is named either by FILE:LINE or by --match",
            Problem::Option => "no such option of this command; --help behind it names them",
            Problem::Order => "the day of --to is before that of --from",
            Problem::OrderOf => {
                "--sort and --group-by are options of agenda, habits, match, next, projects and todo"
            }
            Problem::Page => "page has one form, without -n, --json, --csv and --format",
            Problem::Properties => {
                "--properties takes names with commas between them, and goes with --json"
            }
            Problem::RowsAlone =>
                "--format and --properties are for rows, which this command has none of",
            Problem::Severity => "--severity is error, warning or note",
            Problem::Since => "--since names a moment after the one that is now",
            Problem::SinceBeside => "--since goes neither with -d nor with --within",
            Problem::SinceDays => "--since is more than 366 days back",
            Problem::SinceMoment => {
                "no such moment: --since takes one as \"2024-02-28 10:30\" or \"yesterday 9:00\""
            }
            Problem::Sort => NO_KEY,
            Problem::SortTwice => "--sort names each key once",
            Problem::Shell => {
                "shell prints the lines for the start of bash, fish or zsh: shell bash"
            }
            Problem::SpecialProperty =>
                "no drawer gives that property: Org reads it from other parts of the heading",
            Problem::State => {
                "what acts changed isn't known: neither XDG_STATE_HOME nor HOME names a folder"
            }
            Problem::Step => "--step is day or week",
            Problem::Tables => "--step cuts these days into more than 366 tables",
            Problem::Tag => "no such tag: a tag has letters, digits, _, @, # and %",
            Problem::To => "--to wants --from",
            Problem::View => "calendar shows a month, a week or a year, and the day after it",
            Problem::ViewFile => {
                "a file of views, orgq/views or one in orgq/views.d, in XDG_CONFIG_HOME or ~/.config, can't be read as a file of UTF-8"
            }
            Problem::ViewForm => {
                "view has lines, -n and --json, and views has lines: other forms are of single commands"
            }
            Problem::Zone => "TZ leads out of the folder of time zones",
            Problem::TwoForms => "--json and --csv are two forms of rows: one of them is wanted",
            Problem::Within =>
                "--within takes minutes, as 90, 1h, 1h30 or 1:30, 0 to 100000 of them",
            Problem::Words => "--words is yes or no",
            Problem::Fault(fault) => why_code(fault.code()),
        }
    }
}

const NO_COMMAND: &str = "no such command; for a file or folder write -f before its name";

const NO_BLOCK: &str =
    "no such block of time; there are today, yesterday, thisweek, lastweek, nextweek, and so month and year, such as 2024, 2024-Q1, 2024-02, 2024-W09, 2024-02-28, and such days as -1d";

const NO_DATE: &str =
    "no such date; there are today, tomorrow, yesterday, mon to sun, eow, eom, eoy, such as +3d, -1w, dec 24, 24.12., 2024-02-28, and a time behind it, 9:30 or 9:30-10:15; then a repeater and a delay, as +1w -2d; then+1w goes on from the date that is there";

const NO_KEY: &str =
    "no such key of --sort; there are time, deadline, scheduled, priority, effort, keyword, title, category, file, closed and urgency, with commas between them, each with - in front for down";

const NO_FORMAT: &str =
    "--format takes names of members in braces, and {{ and }} for braces; there are kind, day, start, end, days, day_of, days_in, file, line, byte, stamp, stamp_line, stamp_column, category, level, keyword, done, priority, title, words, tags, scheduled, deadline, closed, effort, path, from, to, clock, minutes, group, state, state_before, open_below, done_below, next_below, next_date, effort_left, clocked, stuck, blocked, repeater, last_done, graph, id, text";

fn why_code(code: Code) -> &'static str {
    match code {
        Code::Option => NO_BLOCK,
        Code::Regexp => {
            "a pattern in braces is refused: patterns are those of the regex crate, of at most some size"
        }
        Code::Long => "an expression of over 65,536 bytes",
        code => code.name(),
    }
}

/// Says why nothing was answered, and gives the status; of an expression also where it is none, by a caret below it.
pub fn report_problem<R: Eprint + AllocGlobal>(rt: &R, problem: Problem, expression: &str) -> u8 {
    match problem {
        Problem::Fault(fault) if fault.code() == Code::Memory => out_of_memory(rt),
        Problem::Fault(Fault::MatchAt(at)) => point_at(rt, expression, at as usize),
        Problem::Command(Some(name)) => {
            report_command(rt, name.as_str());
            BAD_ARGUMENTS
        }
        _ => {
            say(rt, problem.why());
            BAD_ARGUMENTS
        }
    }
}

// Says which command a word may be meant as, which is none.
fn report_command<R: Eprint + AllocGlobal>(rt: &R, name: &str) {
    let _ = eprintln!(rt;
        "orgq: no such command; did you mean {name}? For a file or folder write -f before its name"
    );
}

// Shows an expression with a caret below the character after the bytes that still begin one.
fn point_at<R: Eprint + AllocGlobal>(rt: &R, expression: &str, at: usize) -> u8 {
    let before = expression.get(..at).unwrap_or(expression);
    let Some(before) = visible_text(rt.alloc(), before) else {
        return out_of_memory(rt);
    };
    let Some(whole) = visible_text(rt.alloc(), expression) else {
        return out_of_memory(rt);
    };
    let width = before.as_str().width().saturating_add(13);
    let _ = eprintln!(rt; "orgq: match {whole}");
    let _ = eprintln!(rt; "{:>width$}", "^");
    if wants_quotes(expression, at) {
        say(rt, QUOTES);
    }
    BAD_ARGUMENTS
}

// Whether a text without quotation marks stands behind a comparison, where an expression ends.
fn wants_quotes(expression: &str, at: usize) -> bool {
    let (Some(before), Some(behind)) = (expression.get(..at), expression.get(at..)) else {
        return false;
    };
    before.ends_with(['=', '<', '>']) && behind.starts_with(char::is_alphabetic)
}

const QUOTES: &str =
    "a text stands in quotation marks, which a shell takes away: 'TODO=\"NEXT\"' in apostrophes keeps them";
