//! The engine's answers as replies, and its background steps.
ghost use Rattle.std.specs.Prelude.{◌≡◌, Bool};
ghost use Rattle.std.specs.Option.{option_copied};
ghost use Rattle.org_engine.specs.Questions.{IsShort};
ghost use Rattle.org_engine.specs.Examined.{MayExamine};
ghost use Rattle.org_engine.specs.Marks.{Looks, Reads, pending_asked};
ghost use Rattle.org_wire.specs.Run.{moment_command};
ghost use Rattle.org_wire.specs.Turns.{CountsFor, Serves, ServesSurely, ServesView, serial_reply, told_change, told_lines, told_text};
ghost use Rattle.org_wire.specs.declared.command.Command.TheVariants.{Complete, Edit};

use crate::command::{BaseVersion, Command, Request};
use crate::reply::{Replaced, Reply};
use org_base::{Bytes, Code, Fault, Word};
use org_cal::Moment;
use org_engine::{Completion, Engine, OwnedChange, View};
use org_text::Text;

// Carries a command out, and answers in the second protocol or in the first.
pub(crate) fn serve<T: Text>(engine: &mut Engine<T>, command: Command, second: bool) -> Reply
    ensures value { Serves second command engine.old result engine.new }
    ensures counts { CountsFor command engine.old engine.new }
{
    match command {
        Command::Add(name, text) => serial_reply(engine.add_bytes(name.as_str(), text)),
        Command::Drop(name) => serial_reply(engine.drop_file(name.as_str())),
        Command::Edit(seen, at, del, ins) => edit(engine, &seen, at, del, ins.as_slice()),
        Command::Complete(seen, line, keyword) => {
            complete(engine, &seen, line, keyword.as_str(), second)
        }
        Command::Inherit(names) => Reply::Serial(engine.set_inherit(names)),
        Command::At(moment) => set_moment(engine, moment),
        Command::Profile(profile) => serial_reply(engine.set_profile(profile)),
        Command::Pin(session) => serial_reply(engine.pin(session)),
        Command::Unpin(session) => serial_reply(engine.unpin(session)),
        Command::Text(name) => told_text(engine.text_of(name.as_str())),
        Command::Keywords(name) => told_lines(engine.keywords_of(name.as_str())),
        Command::Version => told_lines(engine.version()),
        Command::Todo(request, file, words) => {
            ask(engine, View::Todo(name_in(&file), &words), request)
        }
        Command::Match(request, file, text) => {
            ask(engine, View::Match(name_in(&file), text.as_str()), request)
        }
        Command::Agenda(request, date, days) => {
            ask(engine, View::Agenda(date.as_str(), days), request)
        }
        Command::Clock(request, text) => ask(engine, View::Clock(text.as_str()), request),
    }
}

// A name, lent.
fn name_in(file: &Option<Word>) -> Option<&str>
    ensures value { option_copied result ≡ file.now }
{
    match file {
        Some(name) => Some(name.as_str()),
        None => None,
    }
}

// The reply to a change or a pin.
fn serial_reply(outcome: Result<u64, Fault>) -> Reply
    ensures value { result ≡ serial_reply outcome }
{
    match outcome {
        Ok(serial) => Reply::Serial(serial),
        Err(fault) => Reply::Refused(fault),
    }
}

// The reply to a question for a text.
fn told_text(outcome: Result<String, Fault>) -> Reply
    ensures value { result ≡ told_text outcome }
{
    match outcome {
        Ok(text) => Reply::Shown(Bytes::new(text.into_bytes())),
        Err(fault) => Reply::Refused(fault),
    }
}

// The reply to a question for lines.
fn told_lines(outcome: Result<Bytes, Fault>) -> Reply
    ensures value { result ≡ told_lines outcome }
{
    match outcome {
        Ok(lines) => Reply::Shown(lines),
        Err(fault) => Reply::Refused(fault),
    }
}

// The reply to a completion, with what it replaced.
fn told_change(outcome: Result<Completion, Fault>) -> Reply
    ensures value { result ≡ told_change outcome }
{
    match outcome {
        Ok(done) => {
            let OwnedChange { at, del, ins } = done.change;
            let ins = Bytes::new(ins.into_bytes());
            Reply::Changed(done.serial, Replaced { at, del, ins })
        }
        Err(fault) => Reply::Refused(fault),
    }
}

// Replaces bytes of the text that a session saw.
fn edit<T: Text>(engine: &mut Engine<T>, seen: &BaseVersion, at: u64, del: u64, ins: &[u8]) -> Reply
    ensures value { (second : Bool) → Serves second (Edit seen.now at del ins.now) engine.old result engine.new }
    ensures counts { CountsFor (Edit seen.now at del ins.now) engine.old engine.new }
{
    serial_reply(engine.edit(seen.session, seen.name.as_str(), seen.serial, at, del, ins))
}

// Completes a heading of the text that a session saw; in the second protocol the answer says what that replaced.
fn complete<T: Text>(
    engine: &mut Engine<T>,
    seen: &BaseVersion,
    line: u64,
    keyword: &str,
    second: bool,
) -> Reply
    ensures value { Serves second (Complete seen.now line keyword.now) engine.old result engine.new }
    ensures counts { CountsFor (Complete seen.now line keyword.now) engine.old engine.new }
{
    let name = seen.name.as_str();
    if second {
        return told_change(engine.complete_and_tell(
            seen.session,
            name,
            seen.serial,
            line,
            keyword,
        ));
    }
    serial_reply(engine.complete(seen.session, name, seen.serial, line, keyword))
}

// Asks for a view.
fn ask<T: Text>(engine: &mut Engine<T>, view: View<'_>, request: Request) -> Reply
    requires short { IsShort view }
    ensures value { ServesView view.entry request engine.old result engine.new }
    ensures counts { Looks (pending_asked request.session engine.old) (MayExamine view.entry) engine.old engine.new }
{
    told_text(engine.query(view, request.form, request.session))
}

// Asks for views at another moment from now on.
fn set_moment<T: Text>(engine: &mut Engine<T>, moment: Option<Moment>) -> Reply
    ensures value { ServesSurely (moment_command moment) engine.old result engine.new }
    ensures counts { engine.new.counts ≡ engine.old.counts }
{
    match moment {
        Some(moment) => Reply::Serial(engine.set_moment(moment)),
        None => Reply::Refused(Fault::Plain(Code::Date)),
    }
}

// Makes up to so many background steps, until none is left or one finds no memory. The state stays; each step reads at most
// one section.
pub(crate) fn work<T: Text>(engine: &mut Engine<T>, idle: u64)
    ensures state { engine.new.state ≡ engine.old.state }
    ensures counts { Reads idle engine.old engine.new }
{
    for _step in 0..idle {
        match engine.work() {
            Ok(true) => {}
            Ok(false) | Err(_) => return,
        }
    }
}
