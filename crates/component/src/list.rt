ghost use Rattle.std.specs.Prelude.{◌≡◌, ◌^◌, ◌<◌, length};
ghost use Rattle.std.specs.Vec.Iter.{into_iter_items, into_iter_len, into_iter_steps};
ghost use Rattle.std.specs.Iterator.Runs.{EveryRun, ItemsAre};

use crate::Component;
use std::alloc::Global;
use std::marker::Model;
use std::vec;

/// A list of components.
#[derive(Drop)]
pub struct Components<const W: usize> {
    pub(crate) components: Vec<Component<W>>,
}

impl<const W: usize> Model for Components<W> {
    ghost use Rattle.std.specs.Prelude.{List};
    ghost use Rattle.std.specs.Coded.{coded_list};
    ghost use Rattle.cluster.specs.Clusters.{Cluster, cluster_code};

    ghost Value = { List Cluster };

    ghost coded = { coded_list cluster_code };

    ghost view = { λ l. l.components.items };
}

impl<const W: usize> Components<W> {
    /// How many components there are.
    pub fn len(&self) -> usize
        ensures { result ≡ length self.now }
    {
        self.components.len()
    }

    /// The components in order.
    pub fn as_slice(&self) -> &[Component<W>]
        ensures { result.now ≡ self.now }
    {
        self.components.as_slice()
    }

    /// Gives the vector of the components, in order. Takes no memory.
    pub fn into_vec(self) -> Vec<Component<W>>
        ensures { result.items ≡ self.entry }
    {
        let Components { components } = self;
        components
    }
}

impl<const W: usize> IntoIterator for Components<W> {
    ghost use Rattle.std.specs.declared.alloc.Global.{Global};
    ghost use Rattle.cluster.specs.Clusters.{Cluster};

    type Item = Component<W>;

    type IntoIter = vec::IntoIter<Component<W>, Global>;

    ghost into_iter_gives = { λ l r. (into_iter_items r ≡ l) × (into_iter_len r ≡ length l) × (into_iter_len r < 2 ^ 64)
        × EveryRun (into_iter_steps {X = Cluster} {Z = Global}) (λ p. ItemsAre p (into_iter_items p.from)) };

    fn into_iter(self) -> vec::IntoIter<Component<W>, Global> {
        self.into_vec().into_iter()
    }
}
