//! What a clock table is asked for.
ghost use Rattle.std.specs.Prelude.{◌≡◌, ◌<◌, ◌^◌, length, option_copied, IfErr, IfOk};
ghost use Rattle.org_cal.specs.Periods.{days_of};
ghost use Rattle.org_clocktable.specs.Request.{AsksFor, IfShort, IsRead, IsReadFrom, IsTableRefusal, IsUnread};

use crate::request::TableRequest;
use org_base::{Code, Fault};
use org_cal::{Day, Period, Step};
use org_match::Match;
use std::alloc::Global;
use std::marker::Model;

/// What a clock table is asked for: its period, the deepest level that is shown, the file if it is one file alone, how the
/// period is cut into steps, whether efforts are shown, and the expression that headings must meet to count.
#[derive(Debug, Drop)]
pub struct TableSpec<'a> {
    period: Period,
    most: u32,
    file: Option<&'a [u8]>,
    step: Step,
    with_effort: bool,
    expression: Option<Match>,
}

impl<'a> Model for TableSpec<'a> {
    ghost use Rattle.std.specs.Prelude.{option_copied};
    ghost use Rattle.org_clocktable.specs.Request.{TableRequest as RequestView};
    ghost use Rattle.org_expression.specs.Grammar.{Expr};

    ghost Value = { RequestView Expr };

    ghost view = { λ t. record { days = (t.period.first, t.period.last); most = t.most; file = option_copied t.file; step = t.step; with_effort = t.with_effort; expression = t.expression } };
}

impl<'a> TableSpec<'a> {
    /// What options ask for on a day (Org manual 9.6, "The clock table"): `block=NAME` and `maxlevel=N`, N from 1 to 99;
    /// and where they stand `file=NAME`, `step=day` or `step=week`, `effort`, and `match=EXPR`. Each stands at most once,
    /// one space between them, in any order, but `match=` is the last and takes the rest of the text. `Option` exactly where
    /// the text isn't that, or names no block; then `MatchAt`, `Regexp` or out of memory as [`Match::read`].
    pub fn read(alloc: Global, text: &'a str, today: Day) -> Result<TableSpec<'a>, Fault>
        requires short { length text.now < 2 ^ 32 }
        ensures value { IfOk result (AsksFor text.now today) }
        ensures refused { IfErr result (IsTableRefusal text.now today) }
    {
        let asked = TableRequest::read(text.as_bytes(), today).ok_or(Fault::Plain(Code::Option))?;
        TableSpec::of(alloc, asked)
    }

    // What is asked for, with its expression read.
    fn of(alloc: Global, asked: TableRequest<'a>) -> Result<TableSpec<'a>, Fault>
        requires short { IfShort asked.expression }
        ensures value { IfOk result (IsReadFrom asked.entry) }
        ensures refused { IfErr result (IsUnread asked.entry.expression) }
    {
        let expression = read_expression(alloc, asked.expression)?;
        Ok(TableSpec {
            period: asked.period,
            most: asked.most,
            file: asked.file,
            step: asked.step,
            with_effort: asked.with_effort,
            expression,
        })
    }

    /// The days that are asked for.
    pub fn period(&self) -> Period
        ensures value { days_of result ≡ self.now.days }
    {
        self.period
    }

    /// The deepest level of the headings that are shown.
    pub fn most(&self) -> u32
        ensures value { result ≡ self.now.most }
    {
        self.most
    }

    /// The name of the file, if the table is over one file alone.
    pub fn file(&self) -> Option<&[u8]>
        ensures value { option_copied result ≡ self.now.file }
    {
        self.file
    }

    /// How the period is cut into steps.
    pub fn step(&self) -> Step
        ensures value { result ≡ self.now.step }
    {
        self.step
    }

    /// Whether efforts are shown.
    pub fn with_effort(&self) -> bool
        ensures value { result ≡ self.now.with_effort }
    {
        self.with_effort
    }

    /// The expression that headings must meet to count, if there is one.
    pub fn expression(&self) -> Option<&Match>
        ensures value { option_copied result ≡ self.now.expression }
    {
        self.expression.as_ref()
    }
}

// An expression, read if there is one.
fn read_expression(alloc: Global, text: Option<&str>) -> Result<Option<Match>, Fault>
    requires short { IfShort (option_copied text) }
    ensures value { IfOk result (IsRead (option_copied text.entry)) }
    ensures refused { IfErr result (IsUnread (option_copied text.entry)) }
{
    match text {
        Some(text) => Ok(Some(Match::read(alloc, text)?)),
        None => Ok(None),
    }
}
