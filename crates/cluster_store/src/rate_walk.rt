ghost use Rattle.std.specs.Prelude.{◌≡◌, [], map};
ghost use Rattle.cluster_store.specs.Rates.{entry_rate};

use chunk_index::IndexWalk;
use fee_rate::FeeRate;
use std::marker::Model;

/// The fees and sizes of parts in their order, in satoshis and virtual bytes. They are those that the index has: no cluster
/// is looked at. Contracts see those that are still to come.
#[derive(Drop)]
pub struct RateWalk<'a> {
    entries: Option<IndexWalk<'a>>,
}

impl<'a> Model for RateWalk<'a> {
    ghost use Rattle.std.specs.Prelude.{List};
    ghost use Rattle.std.specs.Coded.{coded_list};
    ghost use Rattle.fee_rate.specs.declared.rates.Sum.{Sum};
    ghost use Rattle.cluster_store.specs.Rates.{rate_code, rates_left};

    ghost Value = { List Sum };

    ghost coded = { coded_list rate_code };

    ghost view = { λ a. rates_left a.entries };
}

impl<'a> RateWalk<'a> {
    /// Those of the parts that some entries stand for.
    pub(crate) fn new(entries: IndexWalk<'a>) -> Self
        ensures { result ≡ map entry_rate entries.entry }
    {
        RateWalk {
            entries: Some(entries),
        }
    }

    /// Those of no part.
    pub(crate) fn none() -> Self
        ensures { result ≡ [] }
    {
        RateWalk { entries: None }
    }
}

impl<'a> Iterator for RateWalk<'a> {
    type Item = FeeRate;

    ghost use Rattle.std.specs.Iterator.{YieldsFirstBy, item_count};
    ghost use Rattle.linearize.specs.Graphs.{sum_from};

    ghost next_gives = { YieldsFirstBy sum_from (λ rest. rest) };

    ghost remaining = { item_count (λ rest. rest) };

    fn next(&mut self) -> Option<FeeRate> {
        match &mut self.entries {
            None => None,
            Some(entries) => {
                let entry = entries.next()?;
                Some(entry.rate)
            }
        }
    }
}
