//! Sequences beside plain lists.
ghost use Rattle.std.specs.Prelude.{◌≡◌, ◌≤◌, length, IfSome};
ghost use Rattle.std.specs.List.{sum_by};

use org_sequence::{Measured, Sequence};
use std::alloc::{AllocError, Global};
use std::test::Fail;

// A number as an item.
#[derive(Drop)]
struct Tally(u32);

impl Measured for Tally {
    ghost use Rattle.std.specs.Prelude.{◌+◌, ◌%◌, nat_eq};

    ghost size = { λ t. t.0 % 7 + 1 };

    ghost lines = { λ t. t.0 % 7 };

    ghost pending = { λ t. nat_eq (t.0 % 5) 0 };

    ghost flagged = { λ t. nat_eq (t.0 % 11) 0 };

    fn size(&self) -> u32 {
        self.0 % 7 + 1
    }

    fn lines(&self) -> u32 {
        self.0 % 7
    }

    fn is_pending(&self) -> bool {
        self.0 % 5 == 0
    }

    fn is_flagged(&self) -> bool {
        self.0 % 11 == 0
    }

    fn share(&self) -> Result<Tally, AllocError> {
        Ok(Tally(self.0))
    }
}

// The next number of a row that looks random.
pub(crate) fn next(seed: u64) -> u64 {
    seed.wrapping_mul(6364136223846793005)
        .wrapping_add(1442695040888963407)
}

// The items of a list, made by hand.
fn numbers_from(alloc: Global, seed: u64) -> Result<Vec<u32>, AllocError> {
    let mut numbers = Vec::new(alloc);
    let mut seed = seed;
    for _ in 0..(seed >> 40) % 45 {
        seed = next(seed);
        numbers.push((seed >> 33) as u32)?;
    }
    Ok(numbers)
}

fn tallies(alloc: Global, numbers: &[u32]) -> Result<Vec<Tally>, AllocError> {
    let mut tallies = Vec::new(alloc);
    for n in numbers {
        tallies.push(Tally(*n))?;
    }
    Ok(tallies)
}

#[tactic(auto, using(org_sequence::proofs::Joins::size_more))]
fn total<T: Measured>(items: &[T]) -> Option<u32>
    ensures { IfSome result (λ n. n ≡ sum_by T.size items.now) }
{
    let mut total = 0u32;
    for item in items {
        total = total.checked_add(item.size())?;
    }
    Some(total)
}

// Replaces a part of the sequence by these items; says whether it could be asked.
fn replace_items(
    sequence: &mut Sequence<Tally>,
    from: u32,
    to: u32,
    items: &[Tally],
) -> Result<bool, AllocError> {
    let Some(more) = total(items) else {
        return Ok(false);
    };
    if from > to || to > sequence.len() || sequence.size().checked_add(more).is_none() {
        return Ok(false);
    }
    sequence.replace(from, to, items)?;
    Ok(true)
}

// A list with a part replaced.
fn splice_all(
    alloc: Global,
    numbers: &[u32],
    from: usize,
    to: usize,
    new: &[u32],
) -> Result<Vec<u32>, AllocError>
    requires order { from ≤ to }
    requires within { to ≤ length numbers.now }
{
    let mut after = Vec::from_slice(alloc, &numbers[..from])?;
    after.extend_from_slice(new)?;
    after.extend_from_slice(&numbers[to..])?;
    Ok(after)
}

// Replaces a part of both, at places that the seed gives. Where memory is refused both are as before.
fn replace_both(
    alloc: Global,
    seed: u64,
    sequence: &mut Sequence<Tally>,
    numbers: &mut Vec<u32>,
) -> Result<bool, AllocError> {
    let len = sequence.len();
    if len as usize != numbers.len() {
        return Ok(false);
    }
    let from = (seed % (u64::from(len) + 1)) as u32;
    let to = from + ((seed >> 20) % u64::from((len - from).min(40) + 1)) as u32;
    let new = numbers_from(alloc, seed)?;
    let after = splice_all(alloc, numbers, from as usize, to as usize, &new)?;
    if !replace_items(sequence, from, to, &tallies(alloc, &new)?)? {
        return Ok(false);
    }
    *numbers = after;
    Ok(true)
}

fn has_items(sequence: &Sequence<Tally>, numbers: &[u32]) -> bool {
    let mut rest = numbers.iter();
    for item in sequence {
        if rest.next() != Some(&item.0) {
            return false;
        }
    }
    rest.next().is_none()
}

// Whether each item is found by its size and by its lines, with what is counted before it.
fn has_places(sequence: &Sequence<Tally>, numbers: &[u32]) -> bool {
    let (mut size, mut lines, mut at) = (0u32, 0u32, 0u32);
    for n in numbers {
        let more = n % 7;
        if at >= sequence.len() || size >= sequence.size() || sequence.find(size) != (at, size) {
            return false;
        }
        let (item, before) = sequence.item_at(size);
        if item.0 != *n || before != size {
            return false;
        }
        if sequence.size_before(at) != size || sequence.lines_before(at) != lines {
            return false;
        }
        if more > 0 && (lines >= sequence.lines() || sequence.find_line(lines) != (at, lines)) {
            return false;
        }
        size = size.wrapping_add(more + 1);
        lines = lines.wrapping_add(more);
        at = at.wrapping_add(1);
    }
    sequence.size() == size && sequence.lines() == lines && sequence.len() == at
}

// Whether the pending and flagged items are the numbers divided by 5 and 11.
fn has_signs(sequence: &Sequence<Tally>, numbers: &[u32]) -> bool {
    let (mut first_pending, mut flagged, mut pending, mut flags) = (None, None, 0u32, 0u32);
    for at in (0..sequence.len()).rev() {
        let n = numbers.get(at as usize).copied().unwrap_or(1);
        if n % 5 == 0 {
            first_pending = Some(at);
            pending = pending.wrapping_add(1);
        }
        if n % 11 == 0 {
            flagged = Some(at);
            flags = flags.wrapping_add(1);
        }
        if at > sequence.len()
            || sequence.first_pending(at) != first_pending
            || sequence.first_flagged(at) != flagged
        {
            return false;
        }
    }
    sequence.pending() == pending && sequence.flags() == flags
}

fn goes_with_a_list(alloc: Global, rounds: u32) -> bool {
    let mut sequence = Sequence::new(alloc);
    let mut numbers = Vec::new(alloc);
    let mut seed = 1;
    for _ in 0..rounds {
        seed = next(seed);
        if replace_both(alloc, seed, &mut sequence, &mut numbers) == Ok(false) {
            return false;
        }
        if !has_items(&sequence, &numbers)
            || !has_places(&sequence, &numbers)
            || !has_signs(&sequence, &numbers)
        {
            return false;
        }
    }
    !sequence.is_empty()
}

#[test]
fn replaced_beside_a_list(rt: HostRuntime) {
    assert!(rt; goes_with_a_list(rt.alloc(), 400));
}
