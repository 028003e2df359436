//! Which headings are projects.
ghost use Rattle.std.specs.Prelude.{◌≡◌, length, IfOk};
ghost use Rattle.org_client.specs.Files.{AreRead};
ghost use Rattle.org_sum.specs.Texts.{AreOfText};

use crate::file_tasks::FileTasks;
use crate::project::Project;
use org_agenda::{Row, holds_of};
use org_base::Fault;
use org_cal::Moment;
use org_inherit::{Heading, Inherit, Inherits};
use org_match::{Match, Matcher};
use org_project::{Flag, both, either, flags, topmost};
use std::alloc::{AllocError, Global};
use std::slice::from_ref;

/// Which headings are listed.
#[derive(Clone, Copy, Debug, PartialEq, Eq)]
pub enum Which {
    /// Projects that stand below no other one.
    Topmost,
    /// All projects.
    All,
    /// Those of the topmost ones that are stuck.
    Stuck,
    /// All projects that are stuck.
    AllStuck,
    /// Tasks that are blocked, whether they are projects or not.
    Blocked,
}

/// What a project is, and what keeps it going, by expressions that hold of headings at a moment; without one a project is a heading
/// with an open keyword or the tag `project` and with tasks below, and what keeps it going has the keyword `NEXT` or is scheduled.
#[derive(Clone, Copy, Debug)]
pub struct ProjectChoice<'a> {
    pub which: Which,
    pub project: Option<&'a Match>,
    pub next: Option<&'a Match>,
    pub moment: Moment,
}

/// What is said of the headings of files as projects, and which of them are listed.
#[derive(Debug, Drop)]
pub struct Projects {
    which: Which,
    files: Vec<FileTasks>,
    /// The rows of the headings that are listed, in the order of files and lines.
    pub rows: Vec<Row>,
}

impl Projects {
    /// What is said of the heading at a place of a file; why it is blocked only where blocked tasks are listed.
    pub fn get(&self, file: usize, heading: usize) -> Option<Project> {
        let tasks = self.files.get(file)?;
        let mut project = tasks.project(heading);
        if self.which != Which::Blocked {
            project.block = None;
        }
        Some(project)
    }
}

/// The projects of files that were read. Each file's outline is passed over a fixed number of times.
pub fn projects_of(
    alloc: Global,
    inherits: &Inherits<'_>,
    choice: &ProjectChoice<'_>,
) -> Result<Projects, Fault>
    requires read { AreRead inherits.now }
{
    let mut files = Vec::new(alloc);
    let mut rows = Vec::new(alloc);
    for file in 0..inherits.count() {
        let tasks = file_tasks(alloc, inherits.get(file), choice)?;
        let of = FileRows {
            file,
            inherit: inherits.get(file),
            tasks: &tasks,
        };
        let own = rows_in(alloc, &of, choice)?;
        rows.extend_from_slice(own.as_slice())?;
        files.push(tasks)?;
    }
    Ok(Projects {
        which: choice.which,
        files,
        rows,
    })
}

// What is said of the headings of a file.
fn file_tasks(
    alloc: Global,
    inherit: &Inherit<'_>,
    choice: &ProjectChoice<'_>,
) -> Result<FileTasks, Fault>
    requires text { AreOfText inherit.now.entries }
{
    let next = next_flags(alloc, inherit, choice)?;
    moved_tasks(alloc, inherit, next.as_slice(), choice)
}

// The same, where these entries are next.
#[tactic(auto, using(org_project::proofs::FlagLemmas::either_length))]
fn moved_tasks(
    alloc: Global,
    inherit: &Inherit<'_>,
    next: &[bool],
    choice: &ProjectChoice<'_>,
) -> Result<FileTasks, Fault>
    requires next { length next.now ≡ length inherit.now.entries }
    requires text { AreOfText inherit.now.entries }
{
    if choice.next.is_some() {
        return FileTasks::of(alloc, inherit, next, next);
    }
    let scheduled = flags(alloc, inherit, Flag::Scheduled)?;
    let moving = either(alloc, next, scheduled.as_slice())?;
    FileTasks::of(alloc, inherit, next, moving.as_slice())
}

// Which entries are next: headings with the keyword, or undone ones of which the expression holds.
#[tactic(auto, using(org_project::proofs::FlagLemmas::flags_length))]
fn next_flags(
    alloc: Global,
    inherit: &Inherit<'_>,
    choice: &ProjectChoice<'_>,
) -> Result<Vec<bool>, Fault>
    ensures count { IfOk result (λ next. length next.items ≡ length inherit.now.entries) }
{
    match choice.next {
        None => Ok(flags(alloc, inherit, Flag::Next)?),
        Some(expression) => held_flags(alloc, inherit, Flag::Undone, expression, &choice.moment),
    }
}

// Which entries are so, and meet an expression.
#[tactic(auto, using(org_project::proofs::FlagLemmas::both_length, org_project::proofs::FlagLemmas::flags_length))]
fn held_flags(
    alloc: Global,
    inherit: &Inherit<'_>,
    flag: Flag,
    expression: &Match,
    moment: &Moment,
) -> Result<Vec<bool>, Fault>
    ensures count { IfOk result (λ held. length held.items ≡ length inherit.now.entries) }
{
    let mut matcher = Matcher::new(alloc, expression)?;
    let held = holds_of(alloc, &mut matcher, moment, inherit)?;
    let all = flags(alloc, inherit, flag)?;
    Ok(both(alloc, all.as_slice(), held.as_slice())?)
}

// The rows of a file's listed headings.
fn rows_in(
    alloc: Global,
    of: &FileRows<'_, '_, '_>,
    choice: &ProjectChoice<'_>,
) -> Result<Vec<Row>, Fault> {
    let listed = listed_flags(alloc, of, choice)?;
    let mut rows = Vec::new(alloc);
    for place in 0..listed.len() {
        if listed[place] && is_wanted(&of.tasks.project(place), choice.which) {
            rows.extend_from_slice(from_ref(&Row::of_heading(of.file, place)))?;
        }
    }
    Ok(rows)
}

// A file by its place, what its headings inherit, and what is said of them.
#[derive(Clone, Copy)]
struct FileRows<'a, 'b, 'c> {
    file: usize,
    inherit: &'a Inherit<'b>,
    tasks: &'c FileTasks,
}

// Whether a project is one of those that are wanted.
fn is_wanted(project: &Project, which: Which) -> bool {
    match which {
        Which::Topmost | Which::All => true,
        Which::Stuck | Which::AllStuck => project.is_stuck,
        Which::Blocked => project.block.is_some(),
    }
}

// Which entries are projects; where blocked tasks are asked for, which ones are open.
fn listed_flags(
    alloc: Global,
    of: &FileRows<'_, '_, '_>,
    choice: &ProjectChoice<'_>,
) -> Result<Vec<bool>, Fault> {
    match (choice.which, choice.project) {
        (Which::Blocked, _) => Ok(flags(alloc, of.inherit, Flag::Open)?),
        (_, Some(expression)) => held_flags(
            alloc,
            of.inherit,
            Flag::Shown,
            expression,
            &choice.moment,
        ),
        (Which::Topmost | Which::Stuck, None) => {
            let projects = project_flags(alloc, of)?;
            Ok(topmost(alloc, of.inherit.outline(), projects.as_slice())?)
        }
        (Which::All | Which::AllStuck, None) => Ok(project_flags(alloc, of)?),
    }
}

// Which entries are projects where no expression says it.
fn project_flags(alloc: Global, of: &FileRows<'_, '_, '_>) -> Result<Vec<bool>, AllocError> {
    let undone = flags(alloc, of.inherit, Flag::Undone)?;
    let mut projects = Vec::new(alloc);
    for place in 0..undone.len() {
        projects.push(undone[place] && is_project(of, place))?;
    }
    Ok(projects)
}

// Whether an undone heading has a keyword or the tag of projects, and tasks below.
fn is_project(of: &FileRows<'_, '_, '_>, place: usize) -> bool {
    let project = of.tasks.project(place);
    if project.open == 0 && project.done == 0 {
        return false;
    }
    match Heading::at(of.inherit, of.file, place) {
        Some(heading) => heading.keyword().is_some() || has_project_tag(&heading),
        None => false,
    }
}

// Whether a heading's own line has the tag of projects.
fn has_project_tag(heading: &Heading<'_, '_>) -> bool {
    for span in heading.head.tags.as_slice() {
        if heading.entry.part(*span) == PROJECT_TAG {
            return true;
        }
    }
    false
}

const PROJECT_TAG: &[u8] = b"project";
