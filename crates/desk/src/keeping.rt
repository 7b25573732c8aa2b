//! Readings of a whole level, which stay on the desk as lists.
ghost use Rattle.std.specs.Prelude.{◌≡◌, ◌⊎◌, ℕ};
ghost use Rattle.graph_model.specs.Commands as commands;
ghost use Rattle.graphs.specs.declared.names.Level.TheVariants.{Main};
ghost use Rattle.desk.specs.Calls.{Gathers, LacksRoom, ShowsCorners, ShowsOrder, ShowsText};
ghost use Rattle.desk.specs.Orders.{Holds, IsRefused, ShowsClusters, ShowsNames, ShowsNumbers, ShowsSides};

use crate::codes::{DONE, MEMORY};
use crate::desk::Desk;
use crate::ordering::{gather_clusters, gather_names, gather_numbers, gather_sides};
use crate::telling::refuse;
use graph_model::Level;
use graphs::Owned;
use std::alloc::Global;

/// Reads the order of a level.
pub fn read_order(desk: &mut Desk, level: Level, kept: &mut u64) -> u32
    ensures { LacksRoom desk.old desk.new result kept.new
        ⊎ Gathers desk.old desk.new (commands.Order level) result kept.new ShowsOrder }
{
    match desk.pool.gather_order(level) {
        Ok(list) => {
            desk.held.listing = list;
            *kept = 0;
            DONE
        }
        Err(why) => refuse(why, kept),
    }
}

/// Reads the corners of a level's diagram.
pub fn read_corners(desk: &mut Desk, level: Level, kept: &mut u64) -> u32
    ensures { LacksRoom desk.old desk.new result kept.new
        ⊎ Gathers desk.old desk.new (commands.Diagram level) result kept.new ShowsCorners }
{
    match desk.pool.gather_corners(level) {
        Ok(list) => {
            desk.held.corners = list;
            *kept = 0;
            DONE
        }
        Err(why) => refuse(why, kept),
    }
}

/// Reads the text of main.
pub fn read_text(desk: &mut Desk, kept: &mut u64) -> u32
    ensures { Gathers desk.old desk.new commands.Dump result kept.new ShowsText }
{
    match desk.pool.gather_text() {
        Ok(text) => {
            desk.held.text = text;
            *kept = 0;
            DONE
        }
        Err(why) => refuse(why, kept),
    }
}

/// Reads the two sides of a replacement.
pub fn read_sides(alloc: Global, desk: &mut Desk, kept: &mut u64) -> u32
    ensures { LacksRoom desk.old desk.new result kept.new
        ⊎ (IsRefused desk.old desk.new commands.Compare result kept.new ⊎ Holds desk.old desk.new result kept.new ShowsSides) }
{
    match gather_sides(alloc, desk.pool.graph()) {
        Ok(sides) => {
            desk.held.main_side = sides.main;
            desk.held.staging_side = sides.staging;
            *kept = 0;
            DONE
        }
        Err(why) => refuse(why, kept),
    }
}

/// Reads the numbers of the clusters of main's chunks.
pub fn read_numbers(alloc: Global, desk: &mut Desk, kept: &mut u64) -> u32
    ensures { LacksRoom desk.old desk.new result kept.new
        ⊎ (IsRefused desk.old desk.new (commands.Order Main) result kept.new ⊎ Holds desk.old desk.new result kept.new ShowsNumbers) }
{
    match gather_numbers(alloc, desk.pool.graph()) {
        Ok(numbers) => {
            desk.held.numbers = numbers;
            *kept = 0;
            DONE
        }
        Err(why) => refuse(why, kept),
    }
}

/// Reads the transactions of a level.
pub fn read_names(alloc: Global, desk: &mut Desk, level: Level, kept: &mut u64) -> u32
    ensures { LacksRoom desk.old desk.new result kept.new ⊎ Holds desk.old desk.new result kept.new (ShowsNames level) }
{
    *kept = 0;
    match gather_names(alloc, desk.pool.graph(), level) {
        Ok(names) => {
            desk.held.names = names;
            DONE
        }
        Err(_) => MEMORY,
    }
}

/// Reads the clusters of a level.
pub fn read_clusters(alloc: Global, desk: &mut Desk, level: Level, kept: &mut u64) -> u32
    ensures { LacksRoom desk.old desk.new result kept.new ⊎ Holds desk.old desk.new result kept.new (ShowsClusters level) }
{
    *kept = 0;
    match gather_clusters(alloc, desk.pool.graph(), level) {
        Ok(groups) => {
            desk.held.cluster_counts = Owned::from_vec(groups.counts);
            desk.held.cluster_ids = Owned::from_vec(groups.ids);
            DONE
        }
        Err(_) => MEMORY,
    }
}
