//! Lines that look planned and aren't read so.
ghost use Rattle.std.specs.Prelude.{◌≡◌, is_some};
ghost use Rattle.org_stamp.specs.Pair.{past_spaces, word_at};
ghost use Rattle.org_check.specs.Marks.{counts_nothing_in, has_stamps, is_stray_drawer, is_stray_planning, is_text, is_unclosed_block, is_unread_clock};

use crate::clocks::counts_nothing;
use org_class::{Class, block_name, is_drawer_open};
use org_drawer::read_clock;
use org_stamp::{leading_spaces, planning_word};

// Whether lines of the class are text.
fn is_text(class: Class) -> bool
    ensures value { result ≡ is_text class }
{
    matches!(class, Class::Plain | Class::Setting)
}

/// Whether stamps are looked for in lines of the class.
pub fn has_stamps(class: Class) -> bool
    ensures value { result ≡ has_stamps class }
{
    matches!(
        class,
        Class::Heading | Class::Planning | Class::Clock | Class::Plain | Class::Setting
    )
}

// What is left after the white space at the front.
pub(crate) fn past_spaces(line: &[u8]) -> &[u8]
    ensures value { result.now ≡ past_spaces line.now }
{
    let gap = leading_spaces(line);
    &line[gap..]
}

/// Whether a line of this class has a planning word as its first word and is no planning line.
pub fn is_stray_planning(class: Class, line: &[u8]) -> bool
    ensures value { result ≡ is_stray_planning class line.now }
{
    is_text(class) && planning_word(past_spaces(line)).is_some()
}

/// Whether a line of this class says that a property drawer opens, and opens none.
pub fn is_stray_drawer(class: Class, line: &[u8]) -> bool
    ensures value { result ≡ is_stray_drawer class line.now }
{
    is_text(class) && is_drawer_open(line)
}

/// Whether a line of this class says that a block opens, and opens none.
pub fn is_unclosed_block(class: Class, line: &[u8]) -> bool
    ensures value { result ≡ is_unclosed_block class line.now }
{
    is_text(class) && !block_name(line).is_empty()
}

/// Whether a line of this class begins as a clock line does and is none.
pub fn is_unread_clock(class: Class, line: &[u8]) -> bool
    ensures value { result ≡ is_unread_clock class line.now }
{
    is_text(class) && past_spaces(line).starts_with(b"CLOCK:")
}

/// Whether a line of this class is a clock line whose clock counts no minutes.
pub fn counts_nothing_in(class: Class, line: &[u8]) -> bool
    ensures value { result ≡ counts_nothing_in class line.now }
{
    if !matches!(class, Class::Clock) {
        return false;
    }
    match read_clock(line) {
        Some(clock) => counts_nothing(&clock),
        None => false,
    }
}
