use crate::Queue;
use crate::network::Network;
use bitset::Bits;
use outside::NoMemory;
use std::alloc::Global;
use std::marker::Model;

/// The memory that a solver works in, and the flow that the last call left there.
///
/// [`new`](Scratch::new) takes all of it, for at most 64·W places.
#[derive(Drop)]
pub struct Scratch<const W: usize> {
    pub(crate) queue: Queue<W>,
    pub(crate) network: Network<W>,
}

// Clauses see what each child sends to each parent, and how many places the queue ever gave.
impl<const W: usize> Model for Scratch<W> {
    ghost use Rattle.std.specs.Prelude.{◌*◌};
    ghost use Rattle.closure_flow.specs.Scratches.{Room, rows, shown};

    ghost Value = { Room };

    ghost view = { λ s. record {
      flow = rows (64 * W) (shown (64 * W) s.network.within s.network.into.items s.network.amounts.items);
      given = s.queue.given;
    } };
}

impl<const W: usize> Scratch<W> {
    ghost use Rattle.std.specs.Prelude.{◌≡◌, ℕ, IfOk};
    ghost use Rattle.closure_flow.specs.Scratches.{flow_of};

    /// Makes room for 64·W places, in which nothing flows. Fails where there is no memory.
    pub fn new(alloc: Global) -> Result<Self, NoMemory>
        ensures flow { IfOk result (λ s. (c p : ℕ) → flow_of s c p ≡ 0) }
        ensures given { IfOk result (λ s. s.given ≡ 0) }
    {
        let network = Network::new(alloc)?;
        let queue = Queue::new(alloc, network.rest.len())?;
        Ok(Scratch { network, queue })
    }

    /// The amount that a child sends to a parent: 0 where one of them is not of the set that was solved last.
    pub fn flow(&self, child: usize, parent: usize) -> u128
        ensures { result ≡ flow_of self.now child parent }
    {
        let places = self.network.rest.len();
        if child < places && parent < places && self.network.within.has(parent) {
            self.network.sent(child, parent)
        } else {
            0
        }
    }
}
