//! Whether an answer has a row.
ghost use Rattle.std.specs.List.{list_any};
ghost use Rattle.org_answer.specs.Asked.{TellsAnswer, TellsDays, TellsQuestion};
ghost use Rattle.org_answer.specs.Limits.{is_row};
ghost use Rattle.org_base.specs.Results.{Gives};
ghost use Rattle.org_client.specs.Files.{AreRead};
ghost use Rattle.org_layout.specs.Shown.{lines_of};

use crate::query::{Query, Question, answer};
use crate::view::{Chosen, Days, agenda_over};
use org_agenda::Agenda;
use org_base::Fault;
use org_inherit::Inherits;
use std::alloc::Global;

/// Whether the answer over files that were read has a row. No text is made; of an agenda no more days are looked at than up to
/// the first that has one.
pub fn has_row(
    alloc: Global,
    inherits: &Inherits<'_>,
    question: &Question<'_, '_>,
) -> Result<bool, Fault>
    requires read { AreRead inherits.now }
    ensures value { TellsQuestion result inherits.now question.now }
{
    let chosen = question.chosen();
    match question.asked {
        Query::Agenda(days) => days_have_row(alloc, inherits, &chosen, *days),
        Query::Calendar(calendar) => days_have_row(alloc, inherits, &chosen, calendar.days),
        Query::Hours(days, _) => days_have_row(alloc, inherits, &chosen, *days),
        Query::Ical(asked) => days_have_row(alloc, inherits, &chosen, asked.days),
        Query::Todo(_) => answer_has_row(alloc, inherits, question),
        Query::Match(_) => answer_has_row(alloc, inherits, question),
        Query::Clock(_) => answer_has_row(alloc, inherits, question),
        Query::Next(..) => answer_has_row(alloc, inherits, question),
        Query::Since(..) => answer_has_row(alloc, inherits, question),
    }
}

fn days_have_row(
    alloc: Global,
    inherits: &Inherits<'_>,
    chosen: &Chosen<'_>,
    days: Days,
) -> Result<bool, Fault>
    requires read { AreRead inherits.now }
    ensures value { TellsDays result inherits.now chosen.now days }
{
    let agenda = agenda_over(alloc, inherits, chosen, days)?;
    agenda_has_row(alloc, &agenda)
}

// Whether one of the days of an agenda has a row.
fn agenda_has_row(alloc: Global, agenda: &Agenda) -> Result<bool, Fault>
    ensures value { Gives result (list_any is_row (lines_of agenda.now)) }
{
    for ahead in 0..agenda.count() {
        let rows = agenda.rows(alloc, ahead)?;
        if !rows.as_slice().is_empty() {
            return Ok(true);
        }
    }
    Ok(false)
}

#[tactic(auto, using(crate::proofs::RowLemmas::told))]
fn answer_has_row(
    alloc: Global,
    inherits: &Inherits<'_>,
    question: &Question<'_, '_>,
) -> Result<bool, Fault>
    requires read { AreRead inherits.now }
    ensures value { TellsAnswer result inherits.now question.now }
{
    let answer = answer(alloc, inherits, question)?;
    Ok(answer.has_row())
}
