mod whole_maps;

use graphs::Level;
use outside::NoMemory;
use staging::Overlay;
use std::alloc::Global;
use std::process::Abort;
use std::test::Fail;
use whole_maps::WholeMaps;

/// What is done to two maps.
#[derive(Clone, Copy, Debug)]
enum Step {
    Begin,
    Commit,
    Abort,
    Put(u64, u64),
    Remove(u64),
}

/// Two maps under test.
trait Body {
    fn empty(alloc: Global) -> Self;

    // Does nothing where the step's condition doesn't hold.
    fn take(&mut self, step: Step) -> Result<(), NoMemory>;

    fn is_staged(&self) -> bool;

    fn value(&self, level: Level, key: u64) -> Option<u64>;
}

// What a step does to either kind of maps: their calls have the same names.
macro_rules! take_step {
    ($maps:expr, $step:expr) => {
        match $step {
            Step::Begin if !$maps.staged() => $maps.begin()?,
            Step::Commit if $maps.staged() => $maps.commit(),
            Step::Abort if $maps.staged() => $maps.abort(),
            Step::Put(key, value) => {
                $maps.reserve(1)?;
                $maps.put(key, value);
            }
            Step::Remove(key) => {
                $maps.reserve(1)?;
                $maps.remove(key);
            }
            _ => {}
        }
    };
}

impl Body for Overlay<u64> {
    fn empty(alloc: Global) -> Self {
        Overlay::new(alloc)
    }

    fn take(&mut self, step: Step) -> Result<(), NoMemory> {
        take_step!(self, step);
        Ok(())
    }

    fn is_staged(&self) -> bool {
        self.staged()
    }

    fn value(&self, level: Level, key: u64) -> Option<u64> {
        self.get(level, key).copied()
    }
}

impl Body for WholeMaps {
    fn empty(alloc: Global) -> Self {
        WholeMaps::new(alloc)
    }

    fn take(&mut self, step: Step) -> Result<(), NoMemory> {
        take_step!(self, step);
        Ok(())
    }

    fn is_staged(&self) -> bool {
        self.staged()
    }

    fn value(&self, level: Level, key: u64) -> Option<u64> {
        self.get(level, key).copied()
    }
}

// What the keys 1 to 3 have on main and on top.
fn values<B: Body>(body: &B) -> [Option<u64>; 6] {
    let (main, top) = (Level::Main, Level::Top);
    [
        body.value(main, 1),
        body.value(main, 2),
        body.value(main, 3),
        body.value(top, 1),
        body.value(top, 2),
        body.value(top, 3),
    ]
}

// Takes a step. Where there was no memory both maps must be as they were, and the step is taken again.
fn take<B: Body>(rt: &impl Abort, body: &mut B, step: Step) -> Result<(), NoMemory> {
    let before = values(body);
    if body.take(step).is_err() {
        assert!(rt; values(body) == before, "without memory for {step:?}");
        body.take(step)?;
    }
    Ok(())
}

const A: Option<u64> = Some(10);

const B: Option<u64> = Some(20);

const C: Option<u64> = Some(30);

const N: Option<u64> = None;

// Steps, and what the keys have after each.
static ROWS: [(Step, &[Option<u64>]); 19] = [
    (Step::Put(1, 10), &[A, N, N, A, N, N]),
    (Step::Put(2, 20), &[A, B, N, A, B, N]),
    (Step::Begin, &[A, B, N, A, B, N]),
    (Step::Put(3, 30), &[A, B, N, A, B, C]),
    (Step::Put(1, 20), &[A, B, N, B, B, C]),
    (Step::Remove(2), &[A, B, N, B, N, C]),
    (Step::Remove(9), &[A, B, N, B, N, C]),
    (Step::Abort, &[A, B, N, A, B, N]),
    (Step::Begin, &[A, B, N, A, B, N]),
    (Step::Remove(1), &[A, B, N, N, B, N]),
    (Step::Put(1, 30), &[A, B, N, C, B, N]),
    (Step::Remove(2), &[A, B, N, C, N, N]),
    (Step::Put(3, 10), &[A, B, N, C, N, A]),
    (Step::Commit, &[C, N, A, C, N, A]),
    (Step::Begin, &[C, N, A, C, N, A]),
    (Step::Put(2, 20), &[C, N, A, C, B, A]),
    (Step::Remove(2), &[C, N, A, C, N, A]),
    (Step::Commit, &[C, N, A, C, N, A]),
    (Step::Remove(3), &[C, N, N, C, N, N]),
];

// Takes the steps of the table, and looks at both levels after each.
fn follows_the_table<B: Body>(rt: &impl Abort, body: &mut B) -> Result<(), Fail> {
    for (step, want) in &ROWS {
        take(rt, body, *step)?;
        assert!(rt; values(body).as_slice() == *want, "after {step:?}");
    }
    Ok(())
}

#[test]
fn the_overlay_follows_the_table(rt: HostRuntime) -> Result<(), Fail> {
    let mut overlay = Overlay::new(rt.alloc());
    follows_the_table(&rt, &mut overlay)
}

#[test]
fn two_whole_maps_follow_the_table(rt: HostRuntime) -> Result<(), Fail> {
    let mut whole = WholeMaps::new(rt.alloc());
    follows_the_table(&rt, &mut whole)
}

// A step drawn from a number: changes of four keys, and now and then a begin or an end.
fn drawn(number: u64) -> Step {
    let key = (number >> 8) % 4;
    match (number >> 16) % 16 {
        0 => Step::Begin,
        1 => Step::Commit,
        2 => Step::Abort,
        3..=8 => Step::Remove(key),
        _ => Step::Put(key, number >> 32),
    }
}

fn next_number(number: u64) -> u64 {
    number
        .wrapping_mul(0x5851_f42d_4c95_7f2d)
        .wrapping_add(0x1405_7b7e_f767_814f)
}

// Takes the same steps with both, and compares them after each.
fn agree<A: Body, B: Body>(rt: &impl Abort, a: &mut A, b: &mut B) -> Result<(), Fail> {
    let mut number = 1u64;
    for _ in 0..2000 {
        number = next_number(number);
        let step = drawn(number);
        take(rt, a, step)?;
        take(rt, b, step)?;
        let same = a.is_staged() == b.is_staged() && values(a) == values(b);
        assert!(rt; same, "after {step:?}");
    }
    Ok(())
}

#[test]
fn both_agree_on_drawn_steps(rt: HostRuntime) -> Result<(), Fail> {
    let mut overlay = Overlay::new(rt.alloc());
    let mut whole = WholeMaps::new(rt.alloc());
    agree(&rt, &mut overlay, &mut whole)
}
