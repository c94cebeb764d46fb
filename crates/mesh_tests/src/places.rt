//! Places: which touch, and their words.
use block_index::{Domain, Place, inside, touch};

/// The place that is written as four digits: its level and coordinates.
pub fn place(written: &[u8]) -> Option<Place> {
    match written {
        [level, x, y, z] => Place::new(
            digit(*level),
            coordinate(*x),
            coordinate(*y),
            coordinate(*z),
        ),
        _ => None,
    }
}

fn digit(byte: u8) -> u8 {
    byte.saturating_sub(b'0')
}

fn coordinate(byte: u8) -> u16 {
    u16::from(digit(byte))
}

/// Whether two places are inside and touch, both ways round.
fn touch_both_ways(domain: &Domain, a: &[u8], b: &[u8]) -> bool {
    match (place(a), place(b)) {
        (Some(a), Some(b)) if inside(a, domain) && inside(b, domain) => {
            touch(a, b, domain) && touch(b, a, domain)
        }
        _ => false,
    }
}

/// On one periodic tree the place of level 2 at the corner touches those across the ends.
fn touch_on_one_tree(domain: &Domain) -> bool {
    touch_both_ways(domain, b"2000", b"2333")
        && touch_both_ways(domain, b"2000", b"1100")
        && !touch_both_ways(domain, b"2000", b"2200")
        && !touch_both_ways(domain, b"2000", b"2000")
}

/// On two trees of which the first axis alone wraps.
fn touch_on_two_trees(domain: &Domain) -> bool {
    touch_both_ways(domain, b"2000", b"2711")
        && !touch_both_ways(domain, b"2000", b"2400")
        && !touch_both_ways(domain, b"2000", b"2030")
}

#[test]
fn places_touch_across_the_ends_of_a_periodic_axis(rt: HostRuntime) {
    let one = Domain::new([1, 1, 1], [true, true, true], 2).expect(&rt, "a domain");
    assert!(rt; touch_on_one_tree(&one));
    let two = Domain::new([2, 1, 1], [true, false, false], 2).expect(&rt, "a domain");
    assert!(rt; touch_on_two_trees(&two));
}

/// Child 5 of child 6 of the first root has the path 65 in octal digits.
fn has_its_words(place: Place) -> bool {
    place.path() == 53
        && place.child_number() == 5
        && place.pack() == 0x0002_0003_0002_0001
        && Place::unpack(0x0002_0003_0002_0001) == Some(place)
}

#[test]
fn places_pack_into_words(rt: HostRuntime) {
    let place = place(b"2123").expect(&rt, "a place");
    assert!(rt; has_its_words(place));
    assert!(rt; Place::unpack(0x0007_0000_0000_0000) == None);
    assert!(rt; Place::unpack(0x0001_0000_0000_0020) == None);
}
