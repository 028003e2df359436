//! What few headings have: properties, stamps and clocks.
ghost use Rattle.std.specs.Prelude.{◌≡◌, true};
ghost use Rattle.std.specs.Option.{option_map, option_copied};
ghost use Rattle.org_base.specs.Properties.{value_in};
ghost use Rattle.org_base.specs.Results.{Gives};
ghost use Rattle.org_entry.specs.Details.{nothing};

use crate::own::OwnProperties;
use crate::rare_list::RareList;
use org_drawer::ClockLine;
use org_stamp::Found;
use std::alloc::{AllocError, Global};
use std::marker::Model;

// What a section may have beside its heading line.
#[derive(Debug, Drop)]
pub(crate) struct Parts {
    pub drawer: OwnProperties,
    pub stamps: RareList<Found>,
    pub clocks: RareList<ClockLine>,
}

impl Model for Parts {
    ghost use Rattle.org_entry.specs.Details.{DetailsView};

    ghost Value = { DetailsView };

    ghost view = { λ p. record { drawer = p.drawer; stamps = p.stamps; clocks = p.clocks } };
}

impl Parts {
    // Nothing of it.
    pub(crate) fn none(alloc: Global) -> Parts
        ensures value { result ≡ nothing }
    {
        Parts {
            drawer: OwnProperties::none(),
            stamps: RareList::new(alloc),
            clocks: RareList::new(alloc),
        }
    }

    // Whether there is nothing of it.
    #[tactic(auto, using(crate::proofs::DetailLemmas::nothing_there))]
    fn are_none(&self) -> bool
        ensures none { result ≡ true → self.now ≡ nothing }
    {
        self.drawer.is_none() && self.stamps.is_empty() && self.clocks.is_empty()
    }
}

/// What the property drawer, the stamps and the clock lines of a section say, seen as these three. Most headings have
/// nothing of it, so it stands out of line.
#[derive(Debug, Drop)]
pub struct Details {
    parts: Option<Box<Parts>>,
}

impl Model for Details {
    ghost use Rattle.std.specs.Prelude.{unwrap_or};
    ghost use Rattle.std.specs.Option.{option_map};
    ghost use Rattle.org_entry.specs.Details.{DetailsView, nothing};

    ghost Value = { DetailsView };

    ghost view = { λ d. unwrap_or (option_map (λ b. b.value) d.parts) nothing };
}

impl Details {
    // These parts.
    pub(crate) fn new(alloc: Global, parts: Parts) -> Result<Details, AllocError>
        ensures value { Gives result parts }
    {
        if parts.are_none() {
            return Ok(Details { parts: None });
        }
        Ok(Details {
            parts: Some(Box::new(alloc, parts)?),
        })
    }

    // These stamps, and nothing else. A heading alone has no more, and mostly none.
    pub(crate) fn of_stamps(alloc: Global, stamps: RareList<Found>) -> Result<Details, AllocError>
        ensures value { Gives result (record nothing { stamps = stamps }) }
    {
        if stamps.is_empty() {
            return Ok(Details { parts: None });
        }
        let parts = Parts {
            drawer: OwnProperties::none(),
            stamps,
            clocks: RareList::new(alloc),
        };
        Ok(Details {
            parts: Some(Box::new(alloc, parts)?),
        })
    }

    /// What the heading's own property of a name has, lent; None where its drawer doesn't name it. Letter case doesn't
    /// count. It is never refused, and takes time as the logarithm of the number of names.
    pub fn property(&self, name: &[u8]) -> Option<&[u8]>
        ensures value { option_copied result ≡ value_in self.now.drawer name.now }
    {
        let parts = self.parts.as_ref()?;
        parts.drawer.get(name)
    }

    /// The active stamps of the title and of setting lines and plain lines.
    pub fn stamps(&self) -> &[Found]
        ensures value { result.now ≡ self.now.stamps }
    {
        match &self.parts {
            Some(parts) => parts.stamps.as_slice(),
            None => &[],
        }
    }

    /// The clocks of clock lines.
    pub fn clocks(&self) -> &[ClockLine]
        ensures value { result.now ≡ self.now.clocks }
    {
        match &self.parts {
            Some(parts) => parts.clocks.as_slice(),
            None => &[],
        }
    }
}
