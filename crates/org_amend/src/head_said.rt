//! What a heading line with a change is read as.
ghost use Rattle.std.specs.Prelude.{◌≡◌, ◌<◌, ◌^◌, IfSome, IsOkUnless, length};
ghost use Rattle.std.specs.Option.{option_map};
ghost use Rattle.org_amend.specs.HeadChanges.{cookie_in, is_changed, says_words, wanted_keyword, wanted_priority};
ghost use Rattle.org_amend.specs.Heads.{same_cookie, same_part, same_parts};
ghost use Rattle.org_base.specs.Codes.{memory_fault};
ghost use Rattle.org_base.specs.Results.{Gives};
ghost use Rattle.org_base.specs.Spans.{IsInside, bytes_in};
ghost use Rattle.org_head.specs.Head.{AreInside};

use crate::head::cookie_value;
use crate::head_change::HeadChange;
use crate::planning::ends_like;
use crate::wanted_tags::{all_tags, own_tags};
use org_base::{Fault, Span, Texts};
use org_class::begins_heading;
use org_head::{Head, part, read_head};
use org_settings::Settings;
use std::alloc::Global;

// Whether a new line ends as the old one does, and is read as what that says, but for a change.
#[tactic(auto, unfolding(crate::specs::HeadChanges::is_changed))]
pub(crate) fn is_changed(
    alloc: Global,
    settings: &Settings,
    line: &[u8],
    change: &HeadChange<'_>,
    new: &[u8],
) -> Result<bool, Fault>
    requires size { length line.now < 2 ^ 32 }
    requires new_size { length new.now < 2 ^ 32 }
    ensures value { Gives result (is_changed settings.now change.now line.now new.now) }
    ensures memory { IsOkUnless result memory_fault }
{
    if !(begins_heading(new) && ends_like(line, new)) {
        return Ok(false);
    }
    let was = read_head(alloc, line, settings)?;
    let now = read_head(alloc, new, settings)?;
    if !says_words(line, &was, change, new, &now) {
        return Ok(false);
    }
    let wanted = all_tags(alloc, line, &was, change)?;
    has_tags(alloc, new, &now, &wanted)
}

// Whether the head of a new line says what that of the old one says, but for a change and tags.
fn says_words(line: &[u8], was: &Head, change: &HeadChange<'_>, new: &[u8], now: &Head) -> bool
    requires within { AreInside line.now was.now }
    requires new_within { AreInside new.now now.now }
    ensures value { result ≡ says_words change.now line.now was.now new.now now.now }
{
    now.level == was.level
        && now.comment == was.comment
        && part(new, now.title) == part(line, was.title)
        && says_keyword(line, was.keyword, change, new, now.keyword)
        && says_priority(line, was.priority, change, new, now.priority)
}

fn says_keyword(
    line: &[u8],
    was: Option<Span>,
    change: &HeadChange<'_>,
    new: &[u8],
    now: Option<Span>,
) -> bool
    requires within { IfSome was (IsInside line.now) }
    requires new_within { IfSome now (IsInside new.now) }
    ensures value { result ≡ same_part new.now now (wanted_keyword change.now line.now was) }
{
    match change {
        HeadChange::NoKeyword => now.is_none(),
        HeadChange::Tags(_) | HeadChange::Priority(_) => same_part(line, was, new, now),
    }
}

fn says_priority(
    line: &[u8],
    was: Option<Span>,
    change: &HeadChange<'_>,
    new: &[u8],
    now: Option<Span>,
) -> bool
    requires within { IfSome was (IsInside line.now) }
    requires new_within { IfSome now (IsInside new.now) }
    ensures value { result ≡ same_cookie new.now now (wanted_priority change.now line.now was) }
{
    match change {
        HeadChange::Priority(priority) => says_cookie(new, now, *priority),
        HeadChange::Tags(_) | HeadChange::NoKeyword => same_value(line, was, new, now),
    }
}

// Whether two parts, each of its line, are the same bytes, or there is neither.
fn same_part(line: &[u8], was: Option<Span>, new: &[u8], now: Option<Span>) -> bool
    requires within { IfSome was (IsInside line.now) }
    requires new_within { IfSome now (IsInside new.now) }
    ensures value { result ≡ same_part new.now now (option_map (bytes_in line.now) was) }
{
    match (now, was) {
        (Some(now), Some(was)) => part(new, now) == part(line, was),
        (None, None) => true,
        _ => false,
    }
}

// Whether two cookies, each of its line, have the same priority, or there is neither.
fn same_value(line: &[u8], was: Option<Span>, new: &[u8], now: Option<Span>) -> bool
    requires within { IfSome was (IsInside line.now) }
    requires new_within { IfSome now (IsInside new.now) }
    ensures value { result ≡ same_cookie new.now now (option_map (cookie_in line.now) was) }
{
    match (now, was) {
        (Some(now), Some(was)) => cookie_value(part(new, now)) == cookie_value(part(line, was)),
        (None, None) => true,
        _ => false,
    }
}

// Whether a part of a line is the cookie of a priority, or there is neither.
fn says_cookie(line: &[u8], cookie: Option<Span>, priority: Option<&str>) -> bool
    requires within { IfSome cookie (IsInside line.now) }
    ensures value { result ≡ same_cookie line.now cookie (option_map (λ w. w.now) priority.entry) }
{
    match (cookie, priority) {
        (Some(cookie), Some(priority)) => cookie_value(part(line, cookie)) == priority.as_bytes(),
        (None, None) => true,
        _ => false,
    }
}

// Whether a line of that head has these tags.
pub(crate) fn has_tags(
    alloc: Global,
    line: &[u8],
    head: &Head,
    wanted: &Texts,
) -> Result<bool, Fault>
    ensures value { Gives result (same_parts line.now head.now.tags wanted.now) }
    ensures memory { IsOkUnless result memory_fault }
{
    let own = own_tags(alloc, line, head.tags.as_slice())?;
    Ok(own.is_same(wanted))
}
