//! Which repeaters are rules of calendars.
ghost use Rattle.std.specs.Prelude.{◌≡◌, map};
ghost use Rattle.org_base.specs.Results.{GivesItems};
ghost use Rattle.org_client.specs.EventTimes.{date_of};
ghost use Rattle.org_client.specs.EventRules.{delayed_rule, frequency_of, is_in_each_month, is_leap_day, more_dates, plain_rule, repeater_rule, rule_of, rule_with, start_of};

use crate::when::date_of;
use org_agenda::HeadingStamp;
use org_base::Profile;
use org_cal::{Day, Unit};
use org_entry::Role;
use org_ical::{Date, Frequency, Rule};
use org_stamp::{Repeater, Stamp};
use std::alloc::{AllocError, Global};

/// The rule of a stamp, if one gives the days on which it begins.
pub(crate) fn rule_of(profile: Profile, source: &HeadingStamp) -> Option<Rule>
    ensures value { result ≡ rule_of profile source.now }
{
    let stamp = &source.stamp;
    match source.role {
        Role::Scheduled => delayed_rule(stamp),
        Role::Plain | Role::Deadline => plain_rule(profile, stamp),
    }
}

fn delayed_rule(stamp: &Stamp) -> Option<Rule>
    ensures value { result ≡ delayed_rule stamp.now stamp.now.delay }
{
    match stamp.delay {
        Some(_) => None,
        None => repeater_rule(stamp.repeater, stamp.day),
    }
}

fn plain_rule(profile: Profile, stamp: &Stamp) -> Option<Rule>
    ensures value { result ≡ plain_rule profile stamp.now stamp.now.last }
{
    match (profile, stamp.last) {
        (Profile::One, Some(_)) => None,
        _ => repeater_rule(stamp.repeater, stamp.day),
    }
}

fn repeater_rule(repeater: Option<Repeater>, day: Day) -> Option<Rule>
    ensures value { result ≡ repeater_rule repeater day }
{
    let repeater = repeater?;
    rule_with(repeater.n, frequency_of(repeater.unit, day))
}

fn rule_with(n: u16, frequency: Option<Frequency>) -> Option<Rule>
    ensures value { result ≡ rule_with n frequency }
{
    match frequency {
        Some(frequency) if n != 0 => Some(Rule {
            interval: n,
            frequency,
        }),
        _ => None,
    }
}

// How long the steps of a unit are from a day on, if they lead to the same days.
fn frequency_of(unit: Unit, day: Day) -> Option<Frequency>
    ensures value { result ≡ frequency_of unit day }
{
    match unit {
        Unit::Hour => None,
        Unit::Day => Some(Frequency::Daily),
        Unit::Week => Some(Frequency::Weekly),
        Unit::Month => is_in_each_month(day).then_some(Frequency::Monthly),
        Unit::Year => (!is_leap_day(day)).then_some(Frequency::Yearly),
    }
}

fn is_in_each_month(day: Day) -> bool
    ensures value { result ≡ is_in_each_month day }
{
    let (_, _, of_month) = day.parts();
    of_month <= 28
}

fn is_leap_day(day: Day) -> bool
    ensures value { result ≡ is_leap_day day }
{
    let (_, month, of_month) = day.parts();
    month == 2 && of_month == 29
}

/// Where a stamp begins: by a rule on its own day, else on the first of those that are asked.
pub(crate) fn start_of(rule: Option<Rule>, stamp: &Stamp, first: Day) -> Day
    ensures value { result ≡ start_of rule stamp.now first }
{
    match rule {
        Some(_) => stamp.day,
        None => first,
    }
}

/// On which further days it is that no rule gives.
pub(crate) fn more_dates(
    alloc: Global,
    rule: Option<Rule>,
    days: &[Day],
) -> Result<Vec<Date>, AllocError>
    ensures value { GivesItems result (more_dates rule days.now) }
{
    match rule {
        Some(_) => Ok(Vec::new(alloc)),
        None => dates_of(alloc, days),
    }
}

fn dates_of(alloc: Global, days: &[Day]) -> Result<Vec<Date>, AllocError>
    ensures value { GivesItems result (map date_of days.now) }
{
    let mut dates = Vec::new(alloc);
    for day in days {
        dates.push(date_of(*day))?;
    }
    Ok(dates)
}
