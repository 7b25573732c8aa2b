ghost use Rattle.std.specs.Prelude.{◌≡◌, ◌+◌, ◌≤◌, length};
ghost use Rattle.chunk_index.specs.Numbers.{listed, count};
ghost use Rattle.chunk_index.specs.Pairs.{clear_of};
ghost use Rattle.chunk_index.specs.Spares.{kept, room};

use crate::numbers::Numbers;
use crate::spares::Spares;
use crate::tree::Tree;

/// Takes the keys of all entries of a tree out of numbers, and keeps its nodes, for which there is room.
pub fn take_all(numbers: &mut Numbers, spares: &mut Spares, tree: Tree)
    requires { kept spares.old + length tree ≤ room spares.old }
    ensures clear { listed numbers.new ≡ clear_of tree (listed numbers.old) }
    ensures fewer { count numbers.new ≤ count numbers.old }
    ensures kept { kept spares.new ≡ kept spares.old + length tree }
    ensures room { room spares.new ≡ room spares.old }
{
    if let Some((left, node, right)) = tree.into_parts() {
        take_all(numbers, spares, left);
        numbers.remove(&node.key);
        spares.give(node);
        take_all(numbers, spares, right);
    }
}
