//! How stamps are looked at.

use org_base::Profile;
use org_cal::Day;

/// How stamps are looked at: in which profile, and which day is today.
#[derive(Clone, Copy, Debug)]
pub struct AsOf {
    pub profile: Profile,
    pub today: Day,
}
