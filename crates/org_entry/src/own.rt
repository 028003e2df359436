//! The properties of a section.
ghost use Rattle.std.specs.Prelude.{◌≡◌, [], true, OnOk};
ghost use Rattle.std.specs.Option.{option_copied};
ghost use Rattle.org_base.specs.Properties.{value_in};
ghost use Rattle.org_drawer.specs.Node.{with_line};

use org_drawer::{Drawer, add_line};
use std::alloc::{AllocError, Global};
use std::marker::Model;

// The properties of a section's drawer, none where it has no drawer; seen as their list.
#[derive(Debug, Drop)]
pub(crate) struct OwnProperties {
    drawer: Option<Drawer>,
}

impl Model for OwnProperties {
    ghost use Rattle.std.specs.Prelude.{List, [], unwrap_or};
    ghost use Rattle.org_base.specs.Properties.{Property};

    ghost Value = { List Property };

    ghost view = { λ p. unwrap_or p.drawer [] };
}

impl OwnProperties {
    // Those of a section without drawer.
    pub(crate) fn none() -> OwnProperties
        ensures value { result ≡ [] }
    {
        OwnProperties { drawer: None }
    }

    // Adds what one more line of the drawer gives.
    pub(crate) fn add(&mut self, alloc: Global, line: &[u8]) -> Result<(), AllocError>
        ensures ok { OnOk result (self.new ≡ with_line self.old line.now) }
    {
        if let Some(drawer) = &mut self.drawer {
            return add_line(drawer, line);
        }
        let mut drawer = Drawer::new(alloc);
        add_line(&mut drawer, line)?;
        self.drawer = Some(drawer);
        Ok(())
    }

    // Whether there is no drawer.
    pub(crate) fn is_none(&self) -> bool
        ensures none { result ≡ true → self.now ≡ [] }
    {
        self.drawer.is_none()
    }

    // What a name has, lent; None where the drawer doesn't name it. Letter case doesn't count.
    pub(crate) fn get(&self, name: &[u8]) -> Option<&[u8]>
        ensures value { option_copied result ≡ value_in self.now name.now }
    {
        let drawer = self.drawer.as_ref()?;
        drawer.get(name)
    }
}
