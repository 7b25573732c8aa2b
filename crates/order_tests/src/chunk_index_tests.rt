use chunk_index::{ChunkIndex, Entry, IndexWalk, Tag};
use fee_rate::FeeRate;
use graphs::Level;
use outside::NoMemory;
use std::alloc::{AllocError, Global};
use std::cmp::Ordering;
use std::process::Abort;
use std::test::Fail;

/// What a row of the table does.
#[derive(Clone, Copy)]
enum Step {
    Insert(Tag),
    Retag(Tag),
    Remove,
}

fn entry(fee: i64, size: u64, serial: u64, position: usize) -> Entry {
    Entry {
        rate: FeeRate { fee, size },
        serial,
        position,
        number: 7,
    }
}

/// The order of the rows by itself, for small numbers.
fn stands_before(a: &Entry, b: &Entry) -> bool {
    let left = i128::from(b.rate.fee).wrapping_mul(i128::from(a.rate.size));
    let right = i128::from(a.rate.fee).wrapping_mul(i128::from(b.rate.size));
    let by_rate = left.cmp(&right);
    let by_serial = by_rate.then(a.serial.cmp(&b.serial));
    let by_position = by_serial.then(a.position.cmp(&b.position));
    by_position.then(a.rate.size.cmp(&b.rate.size)) == Ordering::Less
}

/// A sorted list of entries with their tags, as slow as can be.
#[derive(Drop)]
struct Plain {
    items: Vec<(Entry, Tag)>,
}

impl Plain {
    fn insert(&mut self, entry: Entry, tag: Tag) -> Result<(), AllocError> {
        let mut at = 0;
        for (i, item) in self.items.iter().enumerate() {
            if stands_before(&item.0, &entry) {
                at = i + 1;
            }
        }
        if at <= self.items.len() {
            self.items.insert(at, (entry, tag))?;
        }
        Ok(())
    }

    fn remove(&mut self, entry: &Entry) {
        self.items.retain(|item| item.0 != *entry);
    }

    fn retag(&mut self, entry: &Entry, tag: Tag) {
        for item in self.items.iter_mut() {
            if item.0 == *entry {
                item.1 = tag;
            }
        }
    }
}

/// The listed entries of these tags.
fn listed(alloc: Global, plain: &Plain, tags: &[Tag]) -> Result<Vec<Entry>, AllocError> {
    let mut there = Vec::new(alloc);
    for item in &plain.items {
        if tags.contains(&item.1) {
            there.push(item.0)?;
        }
    }
    Ok(there)
}

/// Whether a walk gives these entries.
fn is_onward(alloc: Global, walk: IndexWalk<'_>, there: &[Entry]) -> Result<bool, AllocError> {
    let mut onward = Vec::new(alloc);
    for entry in walk {
        onward.push(entry)?;
    }
    Ok(onward.as_slice() == there)
}

/// Whether a walk gives them in reverse from the back.
fn is_back(alloc: Global, walk: IndexWalk<'_>, there: &[Entry]) -> Result<bool, AllocError> {
    let mut back = Vec::new(alloc);
    for entry in walk.rev() {
        back.push(entry)?;
    }
    back.reverse();
    Ok(back.as_slice() == there)
}

/// Whether a walk gives the listed entries of these tags, and from the back the same in reverse.
fn gives(
    alloc: Global,
    forward: IndexWalk<'_>,
    backward: IndexWalk<'_>,
    plain: &Plain,
    tags: &[Tag],
) -> Result<bool, AllocError> {
    let there = listed(alloc, plain, tags)?;
    let onward = is_onward(alloc, forward, &there)?;
    let back = is_back(alloc, backward, &there)?;
    Ok(onward && back)
}

fn level_agrees(
    alloc: Global,
    index: &ChunkIndex,
    plain: &Plain,
    level: Level,
    tags: &[Tag],
) -> Result<bool, AllocError> {
    gives(alloc, index.walk(level), index.walk(level), plain, tags)
}

fn tag_agrees(
    alloc: Global,
    index: &ChunkIndex,
    plain: &Plain,
    tag: Tag,
) -> Result<bool, AllocError> {
    gives(
        alloc,
        index.walk_only(tag),
        index.walk_only(tag),
        plain,
        &[tag],
    )
}

fn main_agrees(alloc: Global, index: &ChunkIndex, plain: &Plain) -> Result<bool, AllocError> {
    let tags = [Tag::Both, Tag::MainOnly];
    level_agrees(alloc, index, plain, Level::Main, &tags)
}

fn top_agrees(alloc: Global, index: &ChunkIndex, plain: &Plain) -> Result<bool, AllocError> {
    let tags = [Tag::Both, Tag::TopOnly];
    level_agrees(alloc, index, plain, Level::Top, &tags)
}

fn tags() -> &'static [Tag] {
    &[Tag::Both, Tag::MainOnly, Tag::TopOnly]
}

fn agree(alloc: Global, index: &ChunkIndex, plain: &Plain) -> Result<bool, AllocError> {
    if !(main_agrees(alloc, index, plain)? && top_agrees(alloc, index, plain)?) {
        return Ok(false);
    }
    for tag in tags() {
        if !tag_agrees(alloc, index, plain, *tag)? {
            return Ok(false);
        }
    }
    Ok(true)
}

fn insert(
    alloc: Global,
    index: &mut ChunkIndex,
    plain: &mut Plain,
    entry: Entry,
    tag: Tag,
) -> Result<bool, NoMemory> {
    if index.contains(&entry) {
        return Ok(false);
    }
    index.insert(entry, tag)?;
    plain.insert(entry, tag)?;
    Ok(agree(alloc, index, plain)?)
}

fn retag(index: &mut ChunkIndex, plain: &mut Plain, entry: &Entry, tag: Tag) -> bool {
    let Some(number) = index.number(entry) else {
        return false;
    };
    if number != entry.number {
        return false;
    }
    index.retag(entry, tag);
    plain.retag(entry, tag);
    true
}

fn remove(index: &mut ChunkIndex, plain: &mut Plain, entry: &Entry) -> bool {
    let there = index.contains(entry);
    if there {
        index.remove(entry);
        plain.remove(entry);
    }
    there
}

/// One row on both, and whether they could take it and agree then.
fn take(
    alloc: Global,
    index: &mut ChunkIndex,
    plain: &mut Plain,
    step: Step,
    entry: Entry,
) -> Result<bool, NoMemory> {
    let taken = match step {
        Step::Insert(tag) => return insert(alloc, index, plain, entry, tag),
        Step::Retag(tag) => retag(index, plain, &entry, tag),
        Step::Remove => remove(index, plain, &entry),
    };
    Ok(taken && agree(alloc, index, plain)?)
}

/// All rows; how many were taken before the first where the two differ.
fn take_all(alloc: Global, rows: &[(Step, Entry)]) -> Result<usize, NoMemory> {
    let mut index = ChunkIndex::new(alloc);
    let mut plain = Plain {
        items: Vec::new(alloc),
    };
    take_rows(alloc, &mut index, &mut plain, rows)
}

fn take_rows(
    alloc: Global,
    index: &mut ChunkIndex,
    plain: &mut Plain,
    rows: &[(Step, Entry)],
) -> Result<usize, NoMemory> {
    for (at, row) in rows.iter().enumerate() {
        if !take(alloc, index, plain, row.0, row.1)? {
            return Ok(at);
        }
    }
    Ok(rows.len())
}

fn all_are_taken(rt: &impl Abort, alloc: Global, rows: &[(Step, Entry)]) -> Result<(), Fail> {
    assert_eq!(rt; take_all(alloc, rows)?, rows.len());
    Ok(())
}

/// Steps with the fee, the size, the serial and the position of an entry.
static ROWS: [(Step, i64, u64, u64, usize); 16] = [
    (Step::Insert(Tag::Both), 10, 4, 3, 0),
    (Step::Insert(Tag::Both), 5, 2, 2, 9),
    (Step::Insert(Tag::MainOnly), 5, 2, 2, 1),
    (Step::Insert(Tag::TopOnly), -3, 1, 1, 0),
    (Step::Insert(Tag::TopOnly), 10, 4, 2, 1),
    (Step::Insert(Tag::MainOnly), 7, 1, 9, 9),
    (Step::Retag(Tag::MainOnly), 10, 4, 3, 0),
    (Step::Retag(Tag::TopOnly), 5, 2, 2, 9),
    (Step::Retag(Tag::TopOnly), 7, 1, 9, 9),
    (Step::Retag(Tag::MainOnly), 5, 2, 2, 1),
    (Step::Remove, 10, 4, 2, 1),
    (Step::Retag(Tag::Both), 7, 1, 9, 9),
    (Step::Remove, 5, 2, 2, 1),
    (Step::Remove, 7, 1, 9, 9),
    (Step::Retag(Tag::Both), -3, 1, 1, 0),
    (Step::Insert(Tag::Both), 5, 2, 2, 1),
];

fn listed_rows(alloc: Global) -> Result<Vec<(Step, Entry)>, NoMemory> {
    let mut rows = Vec::new(alloc);
    for row in &ROWS {
        rows.push((row.0, entry(row.1, row.2, row.3, row.4)))?;
    }
    Ok(rows)
}

#[test]
fn walks_are_those_of_a_sorted_list(rt: HostRuntime) -> Result<(), Fail> {
    let rows = listed_rows(rt.alloc())?;
    all_are_taken(&rt, rt.alloc(), &rows)
}

/// A hundred rows that fill trees of one tag, and then change and empty them.
fn many_rows(alloc: Global) -> Result<Vec<(Step, Entry)>, NoMemory> {
    let mut rows = Vec::new(alloc);
    for i in 0..50u64 {
        let tag = if i % 5 == 0 { Tag::Both } else { Tag::TopOnly };
        rows.push((Step::Insert(tag), nth(i)))?;
    }
    for i in 0..50u64 {
        let step = match i % 4 {
            0 => Step::Retag(Tag::MainOnly),
            1 => Step::Remove,
            2 => Step::Retag(Tag::Both),
            _ => Step::Retag(Tag::TopOnly),
        };
        rows.push((step, nth(i * 13 % 50)))?;
    }
    Ok(rows)
}

/// Entries in no order.
fn nth(i: u64) -> Entry {
    entry((i % 50 * 37 % 53) as i64, 1 + i % 7, i / 2, 0)
}

#[test]
fn trees_of_one_tag_stay_in_order(rt: HostRuntime) -> Result<(), Fail> {
    let rows = many_rows(rt.alloc())?;
    all_are_taken(&rt, rt.alloc(), &rows)
}

/// An insertion on both, and whether they agree then; where there is no memory for it, neither has changed.
fn insert_or_stay(
    alloc: Global,
    index: &mut ChunkIndex,
    plain: &mut Plain,
    at: u64,
) -> Result<bool, NoMemory> {
    let tag = match at % 3 {
        0 => Tag::Both,
        1 => Tag::MainOnly,
        _ => Tag::TopOnly,
    };
    let entry = nth(at);
    if index.contains(&entry) {
        return Ok(false);
    }
    if let Ok(()) = index.insert(entry, tag) {
        plain.insert(entry, tag)?;
    }
    Ok(agree(alloc, index, plain)?)
}

fn insert_some(alloc: Global) -> Result<bool, NoMemory> {
    let mut index = ChunkIndex::new(alloc);
    let mut plain = Plain {
        items: Vec::new(alloc),
    };
    insert_each(alloc, &mut index, &mut plain)
}

fn insert_each(alloc: Global, index: &mut ChunkIndex, plain: &mut Plain) -> Result<bool, NoMemory> {
    for at in 0..14 {
        if !insert_or_stay(alloc, index, plain, at)? {
            return Ok(false);
        }
    }
    Ok(true)
}

// Run with one allocation refused, an insertion that it meets leaves all as it was.
#[test]
fn an_insertion_without_memory_changes_nothing(rt: HostRuntime) -> Result<(), Fail> {
    assert!(rt; insert_some(rt.alloc())?);
    Ok(())
}
