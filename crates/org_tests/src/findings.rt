//! Findings: an example of each kind, and how they are printed.

use org_base::{Fault, Meter, NameSet};
use org_cal::{Day, Minute, TimeOfDay};
use org_check::{
    ALL_KINDS, About, Findings, Form, Kind, Selection, Wanted, checks, report, unknown_kind,
};
use org_class::read_settings;
use org_text::{Text, Whole};
use std::alloc::Global;
use std::test::Fail;

// Texts, a tilde, and the kinds of what is found in them, in the order of their places; `$` stands between rows. HOLD is a
// keyword of another file, and the moment is 2024-02-09 12:00.
const KINDS: &str = "* a
<2024-02-30 Fri> [2024-02-30]~no-such-date unread-inactive-stamp$* a
<2024-02-09 24:00> <2024-02-09 9am> <2024-02-09 10:00-24:00>~no-such-time no-such-time no-such-time$* a
<2024-02-09 +1w +2w> <2024-02-09 +1q> <2024-02-09 +1w -1d -2d> <2024-02-09 + 1w>~bad-repeater bad-repeater bad-repeater bad-repeater$* a
<2024-2-9> <2024-02-9 Fri>~short-date short-date$* a
<2024-02-09] <2024-02-09 Fri~unclosed-stamp unclosed-stamp$* a
<2024-02-09\u{a0}Fri> <2024-02-09 Fri\u{202f}10:00>~space-in-stamp space-in-stamp$* a
<2024-02-09 Fri 10:00 Berlin> <2024-02-09x> <2024-02-09 10:00 Fri>~unread-stamp unread-stamp unread-stamp$* a
=<2024-02-30>= [[2024-02-30.org][b]]
: <2024-02-30>~quoted-stamp quoted-stamp quoted-stamp$* a
<2024-02-09 Thu> <2024-02-09 freitag> [2024-02-09 Thu] <2024-02-09 Fri>--<2024-02-10 sunday>~wrong-day-name wrong-day-name$* a
<2024-02-09>--<2024-02-01> <2024-02-09>--<2024-02-09>~reversed-range$* a
<2024-02-09 12:00-11:00> <2024-02-09 12:00>--<2024-02-09 11:00>~reversed-times reversed-times$* a
<2024-02-09 +1w>--<2024-02-10>~range-with-repeater$* a
<2024-02-09 +0d>~zero-repeater$* a
<2024-02-09> -- <2024-02-10>, <2024-02-09>\u{2013}<2024-02-10>
=<2024-02-09> - <2024-02-10>= [2024-02-09] - [2024-02-10]~near-range near-range$* a
<%%(diary-float t 4 2)> =<%%(a)>=
%%(org-anniversary 1956 5 14)~diary-sexp diary-sexp$* a
:PROPERTIES:
:A: <2024-02-09>
:END:~stamp-in-drawer$* a
#+begin_quote
<2024-02-09> [2024-02-09]
#+end_quote~stamp-in-block$* a
# <2024-02-09>
#+begin_src c
<2024-02-09>
#+end_src~stamp-in-comment stamp-in-example$* a

DEADLINE: <2024-02-09>
 SCHEDULED: <2024-02-10>~stray-planning stray-planning$CLOSED: [2024-02-09]~stray-planning$* a
DEADLINE: 2024-02-09
SCHEDULED:~planning-without-stamp planning-without-stamp$* a
DEADLINE: <2024/02/09>~planning-without-stamp$* a
- DEADLINE: <2024-02-09>
SCHEDULE: <2024-02-09> DEADLINE <2024-02-09>
=DEADLINE: <2024-02-09>= deadline: <2024-02-09>~near-planning near-planning near-planning$* COMMENT a
** TODO b
DEADLINE: <2024-02-09>
** c
DEADLINE: <2024-02-09>
* TODO d
DEADLINE: <2024-02-09>~hidden-planning$* a
DEADLINE: <2024-02-30>~planning-unread no-such-date$* a
Deadline: <2024-02-09>
deadline: a~planning-case$* a
DEADLINE: [2024-02-09] CLOSED: [2024-02-09]~inactive-planning$* a
DEADLINE: <2024-02-09> and <2024-02-10>
b~planning-rest$* a
DEADLINE: <2024-02-09> DEADLINE: <2024-02-10>~repeated-planning$* a DEADLINE: <2024-02-09> DEADLINE: <2024-02-10>~planning-in-heading$* a
DEADLINE: <2024-02-09>--<2024-02-10>~planning-range$* DONE a
SCHEDULED: <2024-02-09 +1w>~repeater-on-done$* a

:PROPERTIES:
:A: b
:END:~stray-drawer$* a
:PROPERTIES:
b
:END:~drawer-line$* a
:PROPERTIES:
:A: b~unclosed-drawer$* a
:PROPERTIES:
:Effort: two hours
:END:
* b
:PROPERTIES:
:effort: 2h
:END:
* c
:PROPERTIES:
:Effort:
:END:~unread-effort$* a
:PROPERTIES:
:A: b
:a: c
:A+: d
:END:~repeated-property$* a
:PROPERTIES:
:deadline: b
:END:~special-property$* a
#+begin_src c
* b
#+end_src~unclosed-block$* a
#+end_src~stray-block-end$* a
#+begin_example
#+TODO: A
#+end_example~setting-in-block$\u{feff}* a~byte-order-mark$#+TODO A | B
* a~setting-without-colon$#+CATEGORY: a
#+category: b~second-category$#+TODO: A, B | C~comma-in-keywords$#+TODO: A WAIT
#+TODO: B C~missing-bar$#+SETUPFILE: a
#+SETUPFILE: http://a~unread-setting$* HOLD a~keyword-of-other-file$* WAITING a
* waiting a~missing-keyword$* todo a
* DONE: a
* todo
* Todo a~near-keyword near-keyword$* ABC a
* ABC b
* AB c
* AB d~word-in-capitals$*\u{a0}a
* b
\u{200b}DEADLINE: <2024-02-09>~odd-space odd-space$*TODO a
**a~heading-without-space$ ** TODO a
 ** a~indented-heading$* [#A] TODO a~keyword-after-cookie$* TODO [#a] a
* [#65] a~unread-priority unread-priority$* a :b-c:
* a :b:~unread-tags$* a
CLOCK: <2024-02-09>--<2024-02-10>~unread-clock$* a
clock: [2024-02-09]--[2024-02-10]
clock: a~clock-case$* a
- CLOCK: [2024-02-09]--[2024-02-10]~clock-in-list$* a
CLOCK: [2024-02-08 11:59]~running-clock$* a
CLOCK: [2024-02-08 12:00]~open-clock$* a
CLOCK: [2024-02-09]--[2024-02-08]~reversed-clock$* a
CLOCK: [2024-02-09]--[2024-02-09]~empty-clock$* a
CLOCK: [2024-02-09]--[2024-02-11]
CLOCK: [2024-02-10]--[2024-02-12]
CLOCK: [2024-02-12]--[2024-02-13]~overlapping-clocks$CLOCK: [2024-02-09]--[2024-02-10]~clock-before-headings$* TODO a :b:
DEADLINE: <2024-02-09 Fri 10:00-11:00 +1w -3d> SCHEDULED: <2024-02-08 Thu>
:PROPERTIES:
:Effort: 1:30
:END:
:LOGBOOK:
CLOCK: [2024-02-08 Thu 09:00]--[2024-02-08 Thu 10:00] =>  1:00
:END:
b <2024-02-09 Fri>--<2024-02-10 Sat> [2024-02-09 Fri]
#+begin_src c
,* c
#+end_src~";

fn moment() -> Option<Minute> {
    let time = TimeOfDay::read(b"12:00");
    Some(Minute::of(Day::of_text(b"2024-02-09")?, time))
}

fn findings_of<T: Text>(alloc: Global, text: &T) -> Result<Findings, Fault> {
    let settings = read_settings(alloc, &mut Meter::new(), text)?;
    let mut others = NameSet::new(alloc);
    others.add(Vec::from_slice(alloc, b"HOLD")?)?;
    let about = About {
        settings: &settings,
        others: &others,
        now: moment(),
    };
    checks(alloc, &mut Meter::new(), text, &about)
}

// The names of the kinds, with a space between.
fn push_names(out: &mut String, findings: &Findings) -> Result<(), Fault> {
    for finding in findings.as_slice() {
        if !out.is_empty() {
            out.push_str(" ")?;
        }
        out.push_str(finding.kind.name())?;
    }
    Ok(())
}

fn finds(alloc: Global, text: &str, want: &str) -> Result<bool, Fault> {
    let text = Whole::of(alloc, text)?;
    let findings = findings_of(alloc, &text)?;
    let mut names = String::new(alloc);
    push_names(&mut names, &findings)?;
    Ok(names.as_str() == want)
}

// The first row whose findings are of other kinds.
fn wrong_row(alloc: Global) -> Result<Option<&'static str>, Fault> {
    for row in KINDS.split('$') {
        match row.split_once('~') {
            Some((text, want)) if finds(alloc, text, want)? => {}
            _ => return Ok(Some(row)),
        }
    }
    Ok(None)
}

#[test]
fn kinds_of_findings(rt: HostRuntime) -> Result<(), Fail> {
    assert_eq!(rt; wrong_row(rt.alloc())?, None);
    Ok(())
}

// The first kind that no row has, or that isn't found by its name.
fn unseen_kind() -> Option<&'static str> {
    for kind in &ALL_KINDS {
        let name = kind.name();
        if !KINDS.contains(name) || Kind::of_name(name) != Some(*kind) {
            return Some(name);
        }
    }
    None
}

#[test]
fn each_kind_has_a_row(rt: HostRuntime) {
    assert_eq!(rt; unseen_kind(), None);
    assert_eq!(rt; unknown_kind("no-such-date,bad"), Some("bad"));
}

fn print_findings(alloc: Global, text: &str, form: Form) -> Result<Vec<u8>, Fault> {
    let text = Whole::of(alloc, text)?;
    let findings = findings_of(alloc, &text)?;
    let mut selection = Selection::new(alloc);
    selection.take("no-such-date,stray-planning")?;
    let wanted = Wanted {
        selection: &selection,
        form,
    };
    Ok(report(alloc, "a\u{1b}\u{9b}\u{7f}.org", &text, &findings, &wanted)?)
}

fn is_printed(alloc: Global, form: Form, want: &str) -> Result<bool, Fault> {
    let text = "* a\n\n DEADLINE: <2024-02-09>\n<2024-02-30 \u{1b}\u{9b}\u{e9}>\n";
    Ok(print_findings(alloc, text, form)?.as_slice() == want.as_bytes())
}

const LINES: &str =
    "a????.org:3:2: error: no planning line, and its stamps show on their days alone; write it directly under its heading; line 2 is blank [stray-planning]
a????.org:4:1: error: <2024-02-30 ???\u{e9}>: no timestamp, since there is no such day [no-such-date]
";

const OBJECTS: &str =
    "{\"kind\":\"stray-planning\",\"severity\":\"error\",\"file\":\"a\\u001b\\u009b\\u007f.org\",\"line\":3,\"column\":2,\"byte\":6,\"length\":22,\"other_line\":2,\"text\":\"no planning line, and its stamps show on their days alone; write it directly under its heading; line 2 is blank\"}
{\"kind\":\"no-such-date\",\"severity\":\"error\",\"file\":\"a\\u001b\\u009b\\u007f.org\",\"line\":4,\"column\":1,\"byte\":29,\"length\":18,\"text\":\"<2024-02-30 \\u001b\\u009b\u{e9}>: no timestamp, since there is no such day\"}
";

#[test]
fn findings_are_printed(rt: HostRuntime) -> Result<(), Fail> {
    assert!(rt; is_printed(rt.alloc(), Form::Lines, LINES)?);
    assert!(rt; is_printed(rt.alloc(), Form::Json, OBJECTS)?);
    Ok(())
}
