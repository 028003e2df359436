//! What is written where a clock ends.
ghost use Rattle.std.specs.Prelude.{◌≡◌, ◌<◌, ◌^◌, ◌++◌, IsOkUnless};
ghost use Rattle.org_amend.specs.Clocks.{end_text, hours_text, moment_stamp};
ghost use Rattle.org_base.specs.Codes.{memory_fault};
ghost use Rattle.org_base.specs.Results.{GivesText, Writes};

use org_base::Fault;
use org_cal::{Moment, push_two};
use org_stamp::{Stamp, print_stamp};
use std::alloc::{AllocError, Global};

/// What ends a clock at a moment, after so many minutes: two dashes, the moment, and the minutes as Org writes them. It is put
/// right behind the stamp of the running clock; then its line is read as that clock, ended at the moment.
pub fn end_text(alloc: Global, moment: Moment, minutes: u64) -> Result<String, Fault>
    ensures value { GivesText result (end_text moment minutes) }
    ensures memory { IsOkUnless result memory_fault }
{
    let mut text = String::from_str(alloc, "--")?;
    text.push_str(print_stamp(alloc, &moment_stamp(moment))?.as_str())?;
    text.push_str(" => ")?;
    push_hours(&mut text, minutes)?;
    Ok(text)
}

// The inactive stamp of a moment.
pub(crate) fn moment_stamp(moment: Moment) -> Stamp
    ensures value { result ≡ moment_stamp moment }
{
    Stamp {
        active: false,
        day: moment.day,
        time: Some(moment.minute),
        end_time: None,
        repeater: None,
        delay: None,
        last: None,
    }
}

// Puts minutes at the end, as hours in two places or more, and minutes.
fn push_hours(text: &mut String, minutes: u64) -> Result<(), AllocError>
    ensures ok { Writes result text.old text.new (hours_text minutes) }
{
    let hours = minutes / 60;
    if hours < 10 {
        text.push_str(" ")?;
    }
    write!(text, "{hours}:")?;
    push_two(text, (minutes % 60) as u8)
}
