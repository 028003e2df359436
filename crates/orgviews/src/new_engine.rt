//! An engine as the arguments ask for it.
ghost use Rattle.std.specs.Prelude.{◌≡◌};
ghost use Rattle.orgviews.specs.Begun.{begun};

use org_base::Profile;
use org_cal::Moment;
use org_engine::Engine;
use org_text::Text;
use std::alloc::Global;

/// An engine without files at a moment and in a profile.
pub fn new_engine<T: Text>(alloc: Global, moment: Moment, profile: Profile) -> Engine<T>
    ensures value { result.state ≡ begun moment profile }
{
    let mut engine = Engine::new(alloc, moment, 0);
    // Never refused, as the contract shows: there are neither files nor pins.
    let _ = engine.set_profile(profile);
    engine
}
