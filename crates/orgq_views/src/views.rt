//! The views of a file.
ghost use Rattle.std.specs.Prelude.{◌≡◌, false, IfOk};
ghost use Rattle.std.specs.List.{list_any};
ghost use Rattle.orgq_views.specs.Views.{shows_nothing};

use crate::block::{Block, block_of};
use crate::refusal::{BadLine, Refusal};
use std::alloc::{AllocError, Global};

/// A view with a name.
#[derive(Debug, Drop)]
pub struct View {
    pub name: String,
    /// What it is for; empty where the file doesn't say.
    pub about: String,
    /// Whether a question that no row answers is left out.
    pub hides_empty: bool,
    /// Its questions: one at least.
    pub blocks: Vec<Block>,
    /// The number of its first line.
    pub line: usize,
}

// The most views of a file, and the most questions of one.
const MOST_VIEWS: usize = 200;

const MOST_BLOCKS: usize = 20;

const NO_LINE: &str = "a line is [NAME], KEY = VALUE, or # with a remark";

const NO_VIEW: &str = "no [NAME] stands above this line";

const NO_NAME: &str = "a view begins with a line [NAME]";

const BAD_NAME: &str =
    "a name is of small letters, digits and -, a letter first, and no longer than 40";

const TWICE: &str = "a view of this name stands above";

const MANY: &str = "no more than 200 views stand in a file";

const NO_KEY: &str = "no such key; there are about, empty and show";

const NO_VALUE: &str = "no value stands behind =";

const ABOUT_TWICE: &str = "about stands above already";

const NO_EMPTY: &str = "empty is hide or show";

const MANY_BLOCKS: &str = "a view shows no more than 20 commands";

const SHOWS_NOTHING: &str = "this view shows nothing; it wants a line show = COMMAND";

/// The views of a text, in its order: each has a question.
pub fn read_views(alloc: Global, text: &str) -> Result<Vec<View>, Refusal>
    ensures some { IfOk result (λ views. list_any shows_nothing views.items ≡ false) }
{
    let views = views_of_lines(alloc, text)?;
    if has_empty(views.as_slice()) {
        return Err(Refusal::Line(line_of_nothing(views.as_slice()), SHOWS_NOTHING));
    }
    Ok(views)
}

// What its lines say, one after the other.
fn views_of_lines(alloc: Global, text: &str) -> Result<Vec<View>, Refusal> {
    let mut views: Vec<View> = Vec::new(alloc);
    let mut number: usize = 0;
    for line in text.split('\n') {
        number = number.saturating_add(1);
        match put_line(alloc, &mut views, line.trim(), number) {
            Ok(()) => {}
            Err(why) => return Err(why.at(number)),
        }
    }
    Ok(views)
}

// Whether one of some views shows nothing.
fn has_empty(views: &[View]) -> bool
    ensures value { result ≡ list_any shows_nothing views.now }
{
    views.iter().any(shows_nothing)
}

// Whether no question stands below a view's name.
fn shows_nothing(view: &View) -> bool
    ensures value { result ≡ shows_nothing view.now }
{
    view.blocks.is_empty()
}

// The number of the first line of the first view that shows nothing.
fn line_of_nothing(views: &[View]) -> usize {
    match views.iter().find(|view| shows_nothing(view)) {
        Some(view) => view.line,
        None => 0,
    }
}

// Puts what a line says behind the others.
fn put_line(
    alloc: Global,
    views: &mut Vec<View>,
    line: &str,
    number: usize,
) -> Result<(), BadLine> {
    if line.is_empty() || line.starts_with('#') {
        return Ok(());
    }
    if line.starts_with('[') {
        return begin_view(alloc, views, line, number);
    }
    let Some((key, value)) = line.split_once('=') else {
        return Err(BadLine::Because(NO_LINE));
    };
    match views.last_mut() {
        Some(view) => view.put_value(alloc, key.trim(), value.trim(), number),
        None => Err(BadLine::Because(NO_VIEW)),
    }
}

// Begins the view that a line names.
fn begin_view(
    alloc: Global,
    views: &mut Vec<View>,
    line: &str,
    number: usize,
) -> Result<(), BadLine> {
    let Some(name) = named_in(line) else {
        return Err(BadLine::Because(NO_NAME));
    };
    if !is_name(name) {
        return Err(BadLine::Because(BAD_NAME));
    }
    if views.iter().any(|view| view.name.as_str() == name) {
        return Err(BadLine::Because(TWICE));
    }
    if views.len() >= MOST_VIEWS {
        return Err(BadLine::Because(MANY));
    }
    let view = View::new(alloc, name, number)?;
    views.push(view)?;
    Ok(())
}

// What stands between the brackets of a line.
fn named_in(line: &str) -> Option<&str> {
    let rest = line.strip_prefix('[')?;
    let name = rest.strip_suffix(']')?;
    Some(name.trim())
}

fn is_name(name: &str) -> bool {
    name.len() <= 40
        && name.starts_with(|c: char| c.is_ascii_lowercase())
        && name.chars().all(|c| c.is_ascii_lowercase() || c.is_ascii_digit() || c == '-')
}

impl View {
    fn new(alloc: Global, name: &str, line: usize) -> Result<View, AllocError> {
        let name = String::from_str(alloc, name)?;
        Ok(View {
            name,
            about: String::new(alloc),
            hides_empty: false,
            blocks: Vec::new(alloc),
            line,
        })
    }

    // Puts the value of a key.
    fn put_value(
        &mut self,
        alloc: Global,
        key: &str,
        value: &str,
        number: usize,
    ) -> Result<(), BadLine> {
        if value.is_empty() {
            return Err(BadLine::Because(NO_VALUE));
        }
        match key {
            "about" => self.put_about(alloc, value),
            "empty" => self.put_empty(value),
            "show" => self.put_block(alloc, value, number),
            _ => Err(BadLine::Because(NO_KEY)),
        }
    }

    fn put_about(&mut self, alloc: Global, value: &str) -> Result<(), BadLine> {
        if !self.about.as_str().is_empty() {
            return Err(BadLine::Because(ABOUT_TWICE));
        }
        self.about = String::from_str(alloc, value)?;
        Ok(())
    }

    fn put_empty(&mut self, value: &str) -> Result<(), BadLine> {
        match value {
            "hide" => {
                self.hides_empty = true;
                Ok(())
            }
            "show" => {
                self.hides_empty = false;
                Ok(())
            }
            _ => Err(BadLine::Because(NO_EMPTY)),
        }
    }

    fn put_block(&mut self, alloc: Global, value: &str, number: usize) -> Result<(), BadLine> {
        if self.blocks.len() >= MOST_BLOCKS {
            return Err(BadLine::Because(MANY_BLOCKS));
        }
        let block = block_of(alloc, value, number)?;
        self.blocks.push(block)?;
        Ok(())
    }
}
