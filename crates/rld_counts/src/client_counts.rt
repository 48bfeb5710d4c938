ghost use Rattle.std.specs.Prelude.{◌≡◌, [], IfOk, length};
ghost use Rattle.rld_counts.specs.Cell.{AreCounted};

use crate::counts::Counts;
use std::alloc::{AllocError, Global};
use std::marker::Model;

/// Counts by client, all 0, with which a cell begins to count by client again. They are made
/// before, since memory for them can be refused. A contract sees the number of clients.
#[derive(Drop)]
pub struct ClientCounts {
    each: Vec<Counts>,
}

impl Model for ClientCounts {
    ghost use Rattle.std.specs.Prelude.{ℕ, [], length};
    ghost use Rattle.rld_counts.specs.Cell.{AreCounted};

    ghost Value = { ℕ };

    ghost view = { λ it. length it.each.items };

    ghost invariant = { λ it. AreCounted [] it.each.items };
}

impl ClientCounts {
    /// Counts of 0 for each of `clients` clients. It fails only if memory is refused.
    pub fn new(alloc: Global, clients: u32) -> Result<ClientCounts, AllocError>
        ensures { IfOk result (λ counts. counts ≡ clients) }
    {
        let each = new_clients(alloc, clients)?;
        Ok(ClientCounts { each })
    }

    /// The counts of each client.
    pub(crate) fn into_each(self) -> Vec<Counts>
        ensures len { length result.items ≡ self }
        ensures none { AreCounted [] result.items }
    {
        self.each
    }
}

/// Counts of 0 for each of `clients` clients.
fn new_clients(alloc: Global, clients: u32) -> Result<Vec<Counts>, AllocError>
    ensures len { IfOk result (λ each. length each.items ≡ clients) }
    ensures none { IfOk result (λ each. AreCounted [] each.items) }
{
    let mut each = Vec::new(alloc);
    for _ in 0..clients {
        each.push(Counts::new())?;
    }
    Ok(each)
}
