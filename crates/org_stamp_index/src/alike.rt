//! Stamps of which the same is kept.
ghost use Rattle.std.specs.Prelude.{◌≡◌, map, true};
ghost use Rattle.org_stamp_index.specs.Index.{kept_of};

use crate::near_query::is_reminding;
use org_base::Profile;
use org_entry::EntryStamp;
use org_index::Reach;

// Whether there are as many of the ones as of the others, and of each the same is kept as of the one in its place of the list.
pub(crate) fn are_alike(profile: Profile, stamps: &[EntryStamp], others: &[EntryStamp]) -> bool
    ensures same { result ≡ true → map (kept_of profile) stamps.now ≡ map (kept_of profile) others.now }
{
    if stamps.len() != others.len() {
        return false;
    }
    for place in 0..stamps.len() {
        if !is_alike(profile, &stamps[place], &others[place]) {
            return false;
        }
    }
    true
}

// Whether both press or neither does, and both may matter to the same days.
fn is_alike(profile: Profile, stamp: &EntryStamp, other: &EntryStamp) -> bool
    ensures alike { result ≡ true → kept_of profile stamp.now ≡ kept_of profile other.now }
{
    is_reminding(stamp) == is_reminding(other)
        && Reach::of(&stamp.stamp, profile) == Reach::of(&other.stamp, profile)
}
