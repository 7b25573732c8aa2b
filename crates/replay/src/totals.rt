ghost use Rattle.std.specs.Prelude.{◌≡◌, ℕ, ℤ, List, length};
ghost use Rattle.std.specs.Iterator.{IsFinite};
ghost use Rattle.diagram.specs.Points.{YieldsCorners};
ghost use Rattle.graphs.specs.declared.names.Level.TheVariants.{Main};
ghost use Rattle.graph_model.specs.States.{State};
ghost use Rattle.levels.specs.Levels.{IsWithin};
ghost use Rattle.tx_graph.specs.Kept.{StandsFor};
ghost use Rattle.replay.specs.Generations.{AreTotals, last_sum};

use fee_rate::Sum;
use graph_model::Level;
use tx_graph::TxGraph;

/// Of main: how many names it has, their fees in satoshis and their sizes in virtual bytes together, and how many corners
/// its diagram has.
#[derive(Clone, Copy)]
pub(crate) struct Totals {
    pub(crate) count: u64,
    pub(crate) total: Sum,
    pub(crate) corners: u64,
}

/// The totals of main, which isn't oversized.
pub(crate) fn main_totals<const W: usize>(graph: &TxGraph<W>) -> Totals
    requires { IsWithin graph.now.levels Main }
    ensures { (state : State) → StandsFor graph.now state → AreTotals state.plain result }
{
    let (corners, total) = last_corner(graph.diagram(Level::Main));
    Totals {
        count: graph.count(Level::Main) as u64,
        total,
        corners,
    }
}

/// How many corners there are, and the last of them.
fn last_corner<I: Iterator<Item = (u64, i128)>>(points: I) -> (u64, Sum)
    requires can { I.can_next points }
    requires ends { IsFinite (I.remaining points) }
    requires corners { (list : List (ℕ × ℤ)) × YieldsCorners I.next_gives points list }
    ensures { (list : List (ℕ × ℤ)) → YieldsCorners I.next_gives points list
        → (result.0 ≡ length list) × (result.1 ≡ last_sum list) }
{
    let mut corners = 0;
    let mut last = Sum { fee: 0, size: 0 };
    for (size, fee) in points {
        corners += 1;
        last = Sum { fee, size };
    }
    (corners, last)
}
