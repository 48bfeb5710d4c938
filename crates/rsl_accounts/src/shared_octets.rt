ghost use Rattle.std.specs.Prelude.{◌≡◌, IfOk};

use rsl_wire::NoMemory;
use std::alloc::Global;
use std::marker::Model;
use std::sync::Arc;

/// Octets that several accounts share. A contract sees them as a list.
pub struct SharedOctets {
    octets: Arc<Vec<u8>, Global>,
}

impl Drop for SharedOctets {
    fn drop(self) {
        let SharedOctets { octets } = self;
        drop(octets);
    }
}

impl Model for SharedOctets {
    ghost use Rattle.std.specs.Prelude.{List, ℕ};
    ghost use Rattle.std.specs.Arc.{arc_value};

    ghost Value = { List ℕ };

    ghost view = { λ shared. (arc_value shared.octets).items };
}

impl SharedOctets {
    /// These octets. It fails only where memory is refused.
    pub fn new(alloc: Global, octets: Vec<u8>) -> Result<SharedOctets, NoMemory>
        ensures { IfOk result (λ shared. shared ≡ octets.items) }
    {
        let octets = Arc::new(alloc, octets)?;
        Ok(SharedOctets { octets })
    }

    /// The same octets, which take no memory. It fails only where there are too many owners.
    pub fn share(&self) -> Result<SharedOctets, NoMemory>
        ensures { IfOk result (λ shared. shared ≡ self.now) }
    {
        let octets = Arc::try_clone(&self.octets)?;
        Ok(SharedOctets { octets })
    }

    /// The octets, lent.
    pub fn as_slice(&self) -> &[u8]
        ensures { result.now ≡ self.now }
    {
        self.octets.as_slice()
    }
}
