//! The days that are asked for.
ghost use Rattle.std.specs.Prelude.{◌≡◌};
ghost use Rattle.org_stamp_index.specs.NearQuery.{is_reminding};

use org_base::Profile;
use org_cal::Day;
use org_entry::{EntryStamp, Role};

/// The days from one to another, and by which today and profile stamps are looked at.
#[derive(Clone, Copy, Debug)]
pub struct NearQuery {
    pub profile: Profile,
    pub today: Day,
    pub from: Day,
    pub to: Day,
}

// Whether it stands in the planning line of a heading without a done keyword.
pub(crate) fn is_reminding(stamp: &EntryStamp) -> bool
    ensures { result ≡ is_reminding stamp.now }
{
    match stamp.role {
        Role::Plain => false,
        Role::Scheduled | Role::Deadline => stamp.is_open,
    }
}
