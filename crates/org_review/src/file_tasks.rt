//! What the tasks of a file are.
ghost use Rattle.std.specs.Prelude.{◌≡◌, length};
ghost use Rattle.org_sum.specs.Texts.{AreOfText};

use crate::project::Project;
use org_base::Fault;
use org_cal::{Day, LAST_DAY, Period};
use org_drawer::Planning;
use org_entry::Entry;
use org_inherit::Inherit;
use org_outline::Outline;
use org_project::{Block, Flag, Tasks, blocks, flags, stuck, tasks_below};
use org_sum::{clock_sums, effort_sums};
use std::alloc::{AllocError, Global};

/// What is said of each entry of a file as a project.
#[derive(Debug, Drop)]
pub(crate) struct FileTasks {
    below: TasksBelow,
    sums: Sums,
    marks: Marks,
}

// How many headings below each are open, done and next.
#[derive(Debug, Drop)]
struct TasksBelow {
    open: Vec<usize>,
    done: Vec<usize>,
    next: Vec<usize>,
}

// The efforts and the clocks of subtrees.
#[derive(Debug, Drop)]
struct Sums {
    effort: Vec<u64>,
    clocked: Vec<u64>,
}

// Which entries are stuck, which are blocked, and the first days of subtrees.
#[derive(Debug, Drop)]
struct Marks {
    stuck: Vec<bool>,
    blocks: Vec<Option<Block>>,
    first: Vec<Option<Day>>,
}

impl FileTasks {
    /// Those of a file, where these entries are next, and these keep what they stand below from being stuck.
    pub(crate) fn of(
        alloc: Global,
        inherit: &Inherit<'_>,
        next: &[bool],
        moving: &[bool],
    ) -> Result<FileTasks, Fault>
        requires next { length next.now ≡ length inherit.now.entries }
        requires moving { length moving.now ≡ length inherit.now.entries }
        requires text { AreOfText inherit.now.entries }
    {
        Ok(FileTasks {
            below: below_of(alloc, inherit, next)?,
            sums: sums_of(alloc, inherit)?,
            marks: marks_of(alloc, inherit, moving)?,
        })
    }

    /// What is said of the entry at a place.
    pub(crate) fn project(&self, place: usize) -> Project {
        Project {
            open: count_at(&self.below.open, place),
            done: count_at(&self.below.done, place),
            next: count_at(&self.below.next, place),
            first: day_at(&self.marks.first, place),
            effort: sum_at(&self.sums.effort, place),
            clocked: sum_at(&self.sums.clocked, place),
            is_stuck: flag_at(&self.marks.stuck, place),
            block: block_at(&self.marks.blocks, place),
        }
    }
}

fn count_at(counts: &[usize], place: usize) -> usize {
    match counts.get(place) {
        Some(count) => *count,
        None => 0,
    }
}

fn sum_at(sums: &[u64], place: usize) -> u64 {
    match sums.get(place) {
        Some(sum) => *sum,
        None => 0,
    }
}

/// What a list of flags says at a place; past its end false.
pub(crate) fn flag_at(flags: &[bool], place: usize) -> bool {
    match flags.get(place) {
        Some(flag) => *flag,
        None => false,
    }
}

fn day_at(days: &[Option<Day>], place: usize) -> Option<Day> {
    match days.get(place) {
        Some(day) => *day,
        None => None,
    }
}

fn block_at(blocks: &[Option<Block>], place: usize) -> Option<Block> {
    match blocks.get(place) {
        Some(block) => *block,
        None => None,
    }
}

fn below_of(alloc: Global, inherit: &Inherit<'_>, next: &[bool]) -> Result<TasksBelow, Fault>
    requires next { length next.now ≡ length inherit.now.entries }
{
    Ok(TasksBelow {
        open: flagged_below(alloc, inherit, Flag::Open)?,
        done: flagged_below(alloc, inherit, Flag::Done)?,
        next: tasks_below(alloc, inherit.outline(), next)?,
    })
}

// How many headings below each are so.
#[tactic(auto, using(org_project::proofs::FlagLemmas::flags_length))]
fn flagged_below(
    alloc: Global,
    inherit: &Inherit<'_>,
    flag: Flag,
) -> Result<Vec<usize>, AllocError> {
    let counted = flags(alloc, inherit, flag)?;
    tasks_below(alloc, inherit.outline(), counted.as_slice())
}

fn sums_of(alloc: Global, inherit: &Inherit<'_>) -> Result<Sums, Fault>
    requires text { AreOfText inherit.now.entries }
{
    Ok(Sums {
        effort: efforts_of(alloc, inherit)?,
        clocked: clocked_of(alloc, inherit)?,
    })
}

// The efforts of subtrees: of the headings that are open.
#[tactic(auto, using(org_project::proofs::FlagLemmas::flags_length))]
fn efforts_of(alloc: Global, inherit: &Inherit<'_>) -> Result<Vec<u64>, Fault>
    requires text { AreOfText inherit.now.entries }
{
    let counted = flags(alloc, inherit, Flag::Open)?;
    effort_sums(alloc, inherit.outline(), counted.as_slice())
}

// The clocks of subtrees, of all days.
#[tactic(auto, using(org_project::proofs::FlagLemmas::flags_length))]
fn clocked_of(alloc: Global, inherit: &Inherit<'_>) -> Result<Vec<u64>, Fault>
    requires text { AreOfText inherit.now.entries }
{
    let counted = flags(alloc, inherit, Flag::Shown)?;
    let (Some(first), Some(last)) = (Day::of_number(1), Day::of_number(u64::from(LAST_DAY))) else {
        return Ok(Vec::new(alloc));
    };
    clock_sums(
        alloc,
        inherit.outline(),
        Period { first, last },
        counted.as_slice(),
    )
}

fn marks_of(alloc: Global, inherit: &Inherit<'_>, moving: &[bool]) -> Result<Marks, Fault>
    requires moving { length moving.now ≡ length inherit.now.entries }
{
    Ok(Marks {
        stuck: stuck(alloc, inherit.outline(), moving)?,
        blocks: blocks_of(alloc, inherit)?,
        first: first_of(alloc, inherit)?,
    })
}

// Why entries are blocked, but for those that nothing blocks.
#[tactic(auto, using(org_project::proofs::FlagLemmas::flags_length))]
fn blocks_of(alloc: Global, inherit: &Inherit<'_>) -> Result<Vec<Option<Block>>, AllocError> {
    let undone = flags(alloc, inherit, Flag::Unfinished)?;
    let blocks = all_blocks(alloc, inherit, undone.as_slice())?;
    without_unblocked(alloc, inherit, blocks.as_slice())
}

fn all_blocks(
    alloc: Global,
    inherit: &Inherit<'_>,
    undone: &[bool],
) -> Result<Vec<Option<Block>>, AllocError>
    requires count { length undone.now ≡ length inherit.now.entries }
{
    let ordered = flags(alloc, inherit, Flag::Ordered)?;
    let tasks = Tasks {
        undone,
        ordered: ordered.as_slice(),
    };
    blocks(alloc, inherit.outline(), &tasks)
}

fn without_unblocked(
    alloc: Global,
    inherit: &Inherit<'_>,
    blocks: &[Option<Block>],
) -> Result<Vec<Option<Block>>, AllocError> {
    let unblocked = flags(alloc, inherit, Flag::Unblocked)?;
    let mut some = Vec::new(alloc);
    for (place, block) in blocks.iter().enumerate() {
        some.push(if flag_at(&unblocked, place) {
            None
        } else {
            *block
        })?;
    }
    Ok(some)
}

// The first days of subtrees, of the headings that are open.
fn first_of(alloc: Global, inherit: &Inherit<'_>) -> Result<Vec<Option<Day>>, AllocError> {
    let open = flags(alloc, inherit, Flag::Open)?;
    let days = own_days(alloc, inherit.outline(), open.as_slice())?;
    Ok(first_days(inherit.outline(), days))
}

// The first day that each entry or a heading below it has, where these are their own.
fn first_days(outline: &Outline, own: Vec<Option<Day>>) -> Vec<Option<Day>> {
    let mut first = own;
    let count = outline.count();
    for back in 0..count {
        let place = count - 1 - back;
        let found = day_at(&first, place);
        if let Some(parent) = outline.parent(place) {
            if parent < first.len() {
                first[parent] = earlier(first[parent], found);
            }
        }
    }
    first
}

// The first day of each entry's own.
fn own_days(
    alloc: Global,
    outline: &Outline,
    open: &[bool],
) -> Result<Vec<Option<Day>>, AllocError> {
    let mut days = Vec::new(alloc);
    for place in 0..outline.count() {
        days.push(if flag_at(open, place) {
            planned_day(outline.entry(place))
        } else {
            None
        })?;
    }
    Ok(days)
}

// The earlier one of the days under SCHEDULED and DEADLINE.
fn planned_day(entry: &Entry) -> Option<Day> {
    day_under(&entry.planning())
}

fn day_under(planning: &Option<Planning>) -> Option<Day> {
    let Some(planning) = planning else {
        return None;
    };
    match (planning.scheduled, planning.deadline) {
        (Some((scheduled, _)), Some((deadline, _))) => {
            earlier(Some(scheduled.day), Some(deadline.day))
        }
        (Some((scheduled, _)), None) => Some(scheduled.day),
        (None, Some((deadline, _))) => Some(deadline.day),
        (None, None) => None,
    }
}

// The earlier one of two days, of those that there are.
fn earlier(one: Option<Day>, other: Option<Day>) -> Option<Day> {
    match (one, other) {
        (Some(one), Some(other)) if other.number() < one.number() => Some(other),
        (Some(one), _) => Some(one),
        (None, other) => other,
    }
}
