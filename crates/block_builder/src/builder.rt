ghost use Rattle.std.specs.Prelude.{◌≡◌, ◌≢◌, ◌*◌, true, false, Bool, List, [], option_map, IfOk, OnOk, OnErr, MatchOption};
ghost use Rattle.graphs.specs.Certificates.{Part};
ghost use Rattle.graphs.specs.declared.names.Level.TheVariants.{Main};
ghost use Rattle.graph_model.specs.Commands.{Block};
ghost use Rattle.graph_model.specs.Replies.{block_reply};
ghost use Rattle.graph_model.specs.States.{State};
ghost use Rattle.cluster_store.specs.Lent.{lent};
ghost use Rattle.levels.specs.Levels.{IsWithin};
ghost use Rattle.tx_graph.specs.Dropped.{IsBlockOf};
ghost use Rattle.tx_graph.specs.Kept.{MakesStep, StandsFor};
ghost use Rattle.block_builder.specs.Building.{HasPassed, IsOffered, StepsPast};
ghost use Rattle.block_builder.specs.Drafts.{ArePicked};

use crate::ahead::Ahead;
use crate::draft::Draft;
use crate::marks::mark;
use cluster::PartRef;
use cluster_store::{Parts, Stored};
use graph_model::Picked;
use outside::NoMemory;
use std::alloc::Global;
use std::marker::Model;
use tx_graph::TxGraph;

/// A block builder over the clusters of a graph.
pub type Builder<'g, const W: usize> = BlockBuilder<'g, Stored<W>, W>;

/// Offers the parts of a graph's main one by one, in main's order, of which the caller includes or skips each. No further part of a
/// skipped cluster is offered. The graph can't change meanwhile. Its main isn't oversized.
///
/// This is `BlockBuilder` of Bitcoin Core's `txgraph.h`. Clauses see the parts that weren't gone past, and for each list of parts whether the
/// builder has gone past these (`HasPassed`).
#[derive(Drop)]
pub struct BlockBuilder<'g, T: Parts, const W: usize> {
    alloc: Global,
    graph: &'g TxGraph<W>,
    // the part that is offered, and those behind it
    ahead: Ahead<'g, T>,
    // for the number of each cluster whether it was skipped
    marks: Vec<bool>,
}

impl<'g, T: Parts, const W: usize> Model for BlockBuilder<'g, T, W> {
    ghost use Rattle.graphs.specs.declared.names.Level.TheVariants.{Main};
    ghost use Rattle.levels.specs.Levels.{IsWithin};
    ghost use Rattle.block_builder.specs.Building.{Building, building_code, GraphFits};

    ghost Value = { Building };

    ghost coded = { building_code };

    ghost view = { λ a. record {
      graph = a.graph.now;
      ahead = a.ahead;
      marks = a.marks.items;
    } };

    ghost invariant = { λ a. GraphFits W × IsWithin a.graph.now.levels Main };
}

impl<'g, const W: usize> BlockBuilder<'g, Stored<W>, W> {
    /// Starts in front of the first part of main, which isn't oversized. Takes no memory.
    pub fn new(alloc: Global, graph: &'g TxGraph<W>) -> Self
        requires within { IsWithin graph.now.levels Main }
        ensures graph { result.graph ≡ graph.now }
        ensures past { HasPassed result [] }
    {
        BlockBuilder {
            alloc,
            graph,
            ahead: Ahead::new(graph.numbered()),
            marks: Vec::new(alloc),
        }
    }

    /// The part that is offered: the first one that wasn't gone past and whose cluster wasn't skipped. `None` exactly at the end.
    pub fn current(&self) -> Option<PartRef<'g>>
        ensures ends { MatchOption result (self.now.ahead ≡ []) (λ _. self.now.ahead ≢ []) }
        ensures offered { (past : List (Part × Bool)) → HasPassed self.now past → (state : State) → StandsFor self.now.graph state
            → IsOffered state.plain.main self.now.graph.levels.main.parts past (option_map lent result) }
    {
        match self.ahead.first() {
            Some(shown) => Some(shown.part),
            None => None,
        }
    }

    /// Goes past the part that is offered, which is included. There is one. Takes no memory.
    pub fn include(&mut self)
        requires { self.old.ahead ≢ [] }
        ensures { StepsPast true self.old self.new }
    {
        self.ahead.go_past(self.marks.as_slice());
    }

    /// Goes past the part that is offered, which is left out, as is each later part of its cluster. There is one.
    ///
    /// # Errors
    ///
    /// Fails where there is no memory, and leaves the builder as it was.
    pub fn skip(&mut self) -> Result<(), NoMemory>
        requires { self.old.ahead ≢ [] }
        ensures past { OnOk result (StepsPast false self.old self.new) }
        ensures err { OnErr result (self.new ≡ self.old) }
    {
        let Some(shown) = self.ahead.first() else {
            unreachable!()
        };
        mark(&mut self.marks, shown.number)?;
        self.ahead.go_past(self.marks.as_slice());
        Ok(())
    }

    /// The block of main of at most `limit` virtual bytes, whatever was offered before: each part in main's order is taken exactly where
    /// each earlier part of its cluster is taken and it fits into what those taken before it leave of the limit. It ends as soon as no
    /// transaction could fit. The builder stays as it is.
    ///
    /// # Errors
    ///
    /// Fails where there is no memory.
    pub fn fill(&self, limit: u64) -> Result<Picked, NoMemory>
        ensures block { IfOk result (λ picked. (taken : List Part) × IsBlockOf self.now.graph limit taken × ArePicked taken picked) }
        ensures step { MakesStep self.now.graph self.now.graph (Block limit) (block_reply result) }
    {
        let mut parts = self.graph.numbered();
        let mut draft = Draft::new(self.alloc, limit);
        draft.fill(&mut parts, self.graph.least())?;
        Ok(draft.picked())
    }
}
