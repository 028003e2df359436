//! Which log is asked for.

use crate::ask::asked_period;
use clap::ArgMatches;
use org_cal::Day;
use org_trace::LogQuery;
use orgq_messages::Problem;

/// The log that the words of its command ask for on a day: of the kinds that they name, of all where they name none.
pub fn asked_log(own: &ArgMatches<'_>, today: Day) -> Result<LogQuery, Problem> {
    let period = asked_period(own, today)?;
    let closed = own.get_flag("closed");
    let states = own.get_flag("states");
    let clocks = own.get_flag("clocks");
    let all = !(closed || states || clocks);
    Ok(LogQuery {
        period,
        closed: closed || all,
        states: states || all,
        clocks: clocks || all,
    })
}
