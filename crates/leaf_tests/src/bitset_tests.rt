use bitset::Bits;
use std::process::Abort;
use std::test::Fail;

// Calls stand in functions without clauses: no test needs more of their contracts, which it would carry through its proof.

// A set of these places.
fn set_of(rt: &impl Abort, places: &[usize]) -> Bits<2> {
    let mut set = Bits::empty();
    for place in places {
        assert!(rt; *place < 128);
        set.insert(*place);
    }
    set
}

// Whether a set has these places, upward.
fn has_places(set: &Bits<2>, places: &[usize]) -> bool {
    set.iter().eq(places.iter().copied())
}

fn count<const W: usize>(set: &Bits<W>) -> usize {
    set.count()
}

fn least<const W: usize>(set: &Bits<W>) -> Option<usize> {
    set.least()
}

// The last place of one word and the first of the next, put in downward.
#[test]
fn places_come_upward_across_words(rt: HostRuntime) -> Result<(), Fail> {
    let set = set_of(&rt, &[127, 64, 63, 0]);
    assert!(rt; count(&set) == 4);
    assert!(rt; least(&set) == Some(0));
    assert!(rt; has_places(&set, &[0, 63, 64, 127]));
    Ok(())
}

fn first_of_64(rt: &impl Abort, n: usize) -> Bits<1> {
    assert!(rt; n <= 64);
    Bits::first_n(n)
}

fn without_the_last(set: &Bits<1>) -> Bits<1> {
    let mut most = *set;
    most.remove(63);
    most
}

// How many places are in either set, in both, and in the first alone.
fn counts(a: &Bits<1>, b: &Bits<1>) -> (usize, usize, usize) {
    (count(&a.union(b)), count(&a.meet(b)), count(&a.minus(b)))
}

fn least_difference(a: &Bits<1>, b: &Bits<1>) -> Option<usize> {
    least(&a.minus(b))
}

fn is_subset(a: &Bits<1>, b: &Bits<1>) -> bool {
    a.is_subset(b)
}

fn has_last(set: &Bits<1>) -> bool {
    set.has(63)
}

#[test]
fn one_word_holds_sixty_four_places(rt: HostRuntime) -> Result<(), Fail> {
    let all = first_of_64(&rt, 64);
    let most = without_the_last(&all);
    assert!(rt; count(&all) == 64);
    assert!(rt; counts(&all, &most) == (64, 63, 1));
    assert!(rt; counts(&Bits::empty(), &most) == (63, 0, 0));
    assert!(rt; least_difference(&all, &most) == Some(63));
    assert!(rt; is_subset(&most, &all) && !is_subset(&all, &most));
    assert!(rt; !has_last(&most));
    assert!(rt; least(&first_of_64(&rt, 0)).is_none());
    Ok(())
}

// The places moved downward and then upward.
fn moved(rt: &impl Abort, set: &Bits<2>, down: usize, up: usize) -> Bits<2> {
    assert!(rt; up < 1000);
    let lower = set.lowered(down);
    let _within = lower.count();
    lower.raised(up)
}

// How far the places 63 and 65 are moved downward, how far upward, and which they are then.
static MOVES: [(usize, usize, &[usize]); 15] = [
    (0, 0, &[63, 65]),
    (1, 0, &[62, 64]),
    (2, 0, &[61, 63]),
    (63, 0, &[0, 2]),
    (64, 0, &[1]),
    (65, 0, &[0]),
    (66, 0, &[]),
    (usize::MAX, 0, &[]),
    (0, 1, &[64, 66]),
    (0, 2, &[65, 67]),
    (0, 62, &[125, 127]),
    (0, 63, &[126]),
    (0, 64, &[127]),
    (0, 65, &[]),
    (64, 64, &[65]),
];

// A place from each word, moved by less than a word, by a word and by more, and off either end.
#[test]
fn places_move_across_words(rt: HostRuntime) -> Result<(), Fail> {
    let set = set_of(&rt, &[63, 65]);
    for (down, up, places) in &MOVES {
        let there = moved(&rt, &set, *down, *up);
        assert!(rt; has_places(&there, places), "down {down}, up {up}");
    }
    Ok(())
}
