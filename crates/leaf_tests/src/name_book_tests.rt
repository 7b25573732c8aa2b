ghost use Rattle.std.specs.Prelude.{◌≡◌, ◌+◌, ◌-◌, ◌<◌, ◌≤◌, ◌^◌};

use graphs::TxId;
use name_book::NameBook;
use outside::NoMemory;
use std::process::Abort;
use std::test::Fail;

/// What is done to a book.
#[derive(Clone, Copy)]
enum Step {
    // With whether there is a staging.
    Add(TxId, bool),
    Touch(TxId, TxId),
    Release(TxId),
    // The second leaves its cluster for that of the first.
    Move(TxId, TxId),
    Part(TxId, TxId),
    Forget(TxId),
}

// Each call stands in a function that says no more than how many names were issued: no test needs more of the contracts.

fn add(book: &mut NameBook, id: TxId, staged: bool) -> Result<(), NoMemory>
    requires { book.old.book.issued < 2 ^ 64 - 1 }
    ensures { book.new.book.issued ≤ book.old.book.issued + 1 }
{
    if !book.has(id) && book.len() < 100 {
        book.reserve(1)?;
        book.add(id, staged);
    }
    Ok(())
}

fn touch(book: &mut NameBook, a: TxId, b: TxId)
    ensures { book.new.book.issued ≡ book.old.book.issued }
{
    if a != b && book.has(a) && book.has(b) {
        book.release_all(&[a, b]);
        book.touch_all(&[a, b]);
    }
}

fn release(book: &mut NameBook, id: TxId)
    ensures { book.new.book.issued ≡ book.old.book.issued }
{
    if book.has(id) {
        book.release_all(&[id]);
    }
}

fn move_to(book: &mut NameBook, to: TxId, id: TxId)
    ensures { book.new.book.issued ≡ book.old.book.issued }
{
    if to != id && book.has(to) && book.has(id) {
        book.gather(to, &[id]);
    }
}

fn part(book: &mut NameBook, a: TxId, b: TxId)
    ensures { book.new.book.issued ≡ book.old.book.issued }
{
    if a != b && book.has(a) && book.has(b) {
        book.part(&[a, b]);
    }
}

fn forget(book: &mut NameBook, id: TxId)
    ensures { book.new.book.issued ≡ book.old.book.issued }
{
    if book.has(id) {
        book.forget(id);
    }
}

// Takes a step where its condition holds, and else none.
fn take(book: &mut NameBook, step: Step) -> Result<(), NoMemory>
    requires { book.old.book.issued < 2 ^ 64 - 1 }
    ensures { book.new.book.issued ≤ book.old.book.issued + 1 }
{
    match step {
        Step::Add(id, staged) => add(book, id, staged)?,
        Step::Touch(a, b) => touch(book, a, b),
        Step::Release(id) => release(book, id),
        Step::Move(to, id) => move_to(book, to, id),
        Step::Part(a, b) => part(book, a, b),
        Step::Forget(id) => forget(book, id),
    }
    Ok(())
}

/// Steps, how many names there are then, and the touched ones of them.
type Row = (&'static [Step], usize, &'static [TxId]);

static RUNS: [Row; 7] = [
    (&[Step::Add(1, false), Step::Add(1, true)], 1, &[]),
    (
        &[Step::Add(1, true), Step::Add(2, true), Step::Release(1)],
        2,
        &[2],
    ),
    (
        &[Step::Add(1, true), Step::Add(2, false), Step::Release(1)],
        2,
        &[],
    ),
    (
        &[
            Step::Add(1, true),
            Step::Add(2, true),
            Step::Add(3, true),
            Step::Forget(1),
            Step::Release(4),
        ],
        2,
        &[2, 3],
    ),
    (
        &[
            Step::Add(1, false),
            Step::Add(2, true),
            Step::Add(3, false),
            Step::Touch(3, 1),
            Step::Forget(2),
            Step::Touch(1, 2),
        ],
        2,
        &[1, 3],
    ),
    (
        &[
            Step::Add(1, false),
            Step::Add(2, false),
            Step::Move(1, 2),
            Step::Touch(1, 2),
            Step::Part(1, 2),
            Step::Move(2, 1),
        ],
        2,
        &[1, 2],
    ),
    (
        &[
            Step::Add(3, false),
            Step::Add(1, false),
            Step::Touch(1, 3),
            Step::Forget(1),
            Step::Add(1, true),
            Step::Forget(3),
        ],
        1,
        &[1],
    ),
];

// Takes steps in turn.
fn follow(book: &mut NameBook, steps: &[Step]) -> Result<(), NoMemory>
    requires { book.old.book.issued ≡ 0 }
{
    for (at, step) in steps.iter().enumerate() {
        let _so_far = at;
        take(book, *step)?;
    }
    Ok(())
}

// Whether these are the touched names. They aren't any more then.
fn shows(book: &mut NameBook, names: &[TxId]) -> bool {
    for _name in names {
        match book.first() {
            Some(id) => {
                if !names.contains(&id) {
                    return false;
                }
                book.release_all(&[id]);
            }
            None => return false,
        }
    }
    book.first().is_none()
}

fn follow_row(rt: &impl Abort, book: &mut NameBook, at: usize, row: &Row) -> Result<(), Fail>
    requires { book.old.book.issued ≡ 0 }
{
    let (steps, len, touched) = *row;
    follow(book, steps)?;
    let told = book.len() == len && shows(book, touched);
    assert!(rt; told, "at row {at}");
    Ok(())
}

#[test]
fn names_follow_the_table(rt: HostRuntime) -> Result<(), Fail> {
    for (at, row) in RUNS.iter().enumerate() {
        let mut book = NameBook::new(rt.alloc());
        follow_row(&rt, &mut book, at, row)?;
    }
    Ok(())
}
