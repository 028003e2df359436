//! What of a world is still to be read.
ghost use Rattle.std.specs.Prelude.{◌≡◌, ◌<◌, IfNone, IfOk, IfSome, OnErr, None, false, true, length, nat_lt, IsOkUnless};
ghost use Rattle.org_base.specs.Codes.{memory_fault};
ghost use Rattle.org_base.specs.Counts.{ticked};
ghost use Rattle.org_base.specs.Results.{Gives};
ghost use Rattle.org_base.specs.declared.meter.Tick.TheVariants.{Read};
ghost use Rattle.org_engine.specs.Marks.{IsFirstPending, ReadsNone, WorksOnce, pending_at, pending_in};

use crate::world::World;
use org_base::{Fault, Meter};
use org_text::Text;
use std::alloc::Global;

impl<T: Text> World<T> {
    // How many sections of all files are still to be read.
    pub(crate) fn pending(&self) -> u64
        ensures value { result ≡ pending_in self.now.marks }
    {
        let mut pending = 0;
        for place in 0..self.count() {
            pending += u64::from(self.pending_at(place));
        }
        pending
    }

    // How many sections of the file at a place are still to be read.
    fn pending_at(&self, place: usize) -> u32
        requires within { place < length self.now.world.files }
        ensures value { result ≡ pending_at place self.now.marks }
    {
        self.files[place].pending()
    }

    // The place of the first file with a section that is still to be read.
    fn first_pending(&self) -> Option<usize>
        ensures some { IfSome result (IsFirstPending self.now.marks) }
        ensures none { IfNone result (pending_in self.now.marks ≡ 0) }
    {
        for place in 0..self.count() {
            if self.pending_at(place) > 0 {
                return Some(place);
            }
        }
        None
    }

    // Reads the first section that is still to be read, and says whether there was one; then the meter counts one as read.
    // Out of memory leaves the world as before; then the section was counted too.
    pub(crate) fn work(&mut self, alloc: Global, meter: &mut Meter) -> Result<bool, Fault>
        ensures value { Gives result (nat_lt 0 (pending_in self.old.marks)) }
        ensures some { IfOk result (λ b. b ≡ true → WorksOnce self.old self.new meter.old meter.new) }
        ensures none { IfOk result (λ b. b ≡ false → ReadsNone self.old self.new meter.old meter.new) }
        ensures err { OnErr result ((self.new ≡ self.old) × (meter.new ≡ ticked Read meter.old)) }
        ensures memory { IsOkUnless result memory_fault }
    {
        let Some(place) = self.first_pending() else {
            return Ok(false);
        };
        let file = &mut self.files[place];
        file.work(alloc, meter)
    }
}
