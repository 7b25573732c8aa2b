ghost use Rattle.std.specs.Prelude.{◌≡◌, ◌*◌, ◌≤◌, IfOk};

use outside::NoMemory;
use std::alloc::Global;
use std::marker::Model;

/// The memory in which the orders of components of at most 64·W names are made: that of one word and that of W words, each in a
/// box of its own. One value serves all components.
#[derive(Drop)]
pub struct Work<const W: usize> {
    pub(crate) narrow: Box<cluster::Work<1>>,
    pub(crate) wide: Box<cluster::Work<W>>,
}

// Clauses see how many names there is room for.
impl<const W: usize> Model for Work<W> {
    ghost use Rattle.std.specs.Prelude.{ℕ, ◌*◌, ◌≤◌};

    ghost Value = { ℕ };

    ghost view = { λ w. 64 * W };

    ghost invariant = { λ w. (1 ≤ W) × (W ≤ 64) };
}

impl<const W: usize> Work<W> {
    /// Room for components of 64·W names. All its memory is taken here.
    pub fn new(alloc: Global) -> Result<Self, NoMemory>
        requires wide { 1 ≤ W }
        requires narrow { W ≤ 64 }
        ensures { IfOk result (λ w. w ≡ 64 * W) }
    {
        let narrow = Box::new(alloc, cluster::Work::new(alloc)?)?;
        let wide = Box::new(alloc, cluster::Work::new(alloc)?)?;
        Ok(Work { narrow, wide })
    }
}
