//! A file for each fault.
use crate::files::{END, FRONT, LEAF, has_fault, is_refused};
use checkpoint::CheckFault;
use leaf_set::LeafFault;
use std::alloc::Global;

/// Whether another magic, another version, and bytes after the last part are refused.
fn around(alloc: Global) -> bool {
    let version = CheckFault::Version { found: 9 };
    let after = b"\x00\x00\x00\x00\x00\x00\x00\x01\x00\x00\x00\x00\x00\x00\x00\x00\x00";
    is_refused(alloc, b"CELLOAMS", CheckFault::Magic)
        && is_refused(alloc, b"CELLOAMR\x00\x09", version)
        && has_fault(alloc, FRONT, LEAF, after, CheckFault::Trailing { at: 880 })
}

/// Whether lengths of the text that are too great, too small or too long for the file are refused, and a text with a
/// blank in front, which isn't canonical.
fn lengths(alloc: Global) -> bool {
    let short = CheckFault::Truncated { at: 14 };
    is_refused(
        alloc,
        b"CELLOAMR\x00\x01\xff\xff\xff\xff",
        CheckFault::Params,
    ) && is_refused(
        alloc,
        b"CELLOAMR\x00\x01\x00\x01\x00\x01",
        CheckFault::Params,
    ) && is_refused(alloc, b"CELLOAMR\x00\x01\x00\x01\x00\x00", short)
        && has_fault(
            alloc,
            b"CELLOAMR\x00\x01\x00\x00\x01\x41",
            LEAF,
            END,
            CheckFault::Params,
        )
        && has_fault(
            alloc,
            b"CELLOAMR\x00\x01\x00\x00\x01\x43 ",
            LEAF,
            END,
            CheckFault::Params,
        )
}

#[test]
fn what_stands_around(rt: HostRuntime) {
    assert!(rt; around(rt.alloc()));
    assert!(rt; lengths(rt.alloc()));
}

/// Whether a file with these bytes between its text and its amounts has this fault.
fn leaf_has(alloc: Global, leaf: &[u8], fault: CheckFault) -> bool {
    has_fault(alloc, FRONT, leaf, END, fault)
}

/// Whether cycles above 4096 are refused.
fn cycles(alloc: Global) -> bool {
    let most = CheckFault::Cycle { found: u32::MAX };
    leaf_has(
        alloc,
        b"\x00\x00\x10\x01",
        CheckFault::Cycle { found: 4097 },
    ) && leaf_has(alloc, b"\xff\xff\xff\xff", most)
}

/// Whether more leaves than the parameters allow are refused, and as many as they allow where the file ends before.
fn counts(alloc: Global) -> bool {
    let (found, limit) = (u32::MAX, 4096);
    let more = CheckFault::Count { found: 4097, limit };
    leaf_has(alloc, b"\x00\x00\x00\x00\x00\x00\x10\x01", more)
        && leaf_has(
            alloc,
            b"\x00\x00\x00\x00\xff\xff\xff\xff",
            CheckFault::Count { found, limit },
        )
        && leaf_has(
            alloc,
            b"\x00\x00\x00\x00\x00\x00\x10\x00",
            CheckFault::Truncated { at: 872 },
        )
}

#[test]
fn numbers_out_of_range(rt: HostRuntime) {
    assert!(rt; cycles(rt.alloc()));
    assert!(rt; counts(rt.alloc()));
}

/// Whether a word that is no place, and a place outside the domain, are refused.
fn words(alloc: Global) -> bool {
    let outside = CheckFault::Leaves(LeafFault::Outside { at: 0 });
    leaf_has(
        alloc,
        b"\x00\x00\x00\x00\x00\x00\x00\x01\xff\xff\xff\xff\xff\xff\xff\xff",
        CheckFault::Word { at: 0 },
    ) && leaf_has(
        alloc,
        b"\x00\x00\x00\x00\x00\x00\x00\x01\x00\x00\x00\x00\x00\x00\x00\x01",
        outside,
    )
}

/// Whether the eight children of a root without fields are refused where the first two are swapped, and the root with
/// its first child.
fn meshes(alloc: Global) -> bool {
    let swapped =
        b"CELLOAMR\x00\x01\x00\x00\x00\x3cMesh {\n  array = [1, 1, 1];\n  block = 4;\n  max_level = 1;\n}\n\x00\x00\x00\x00\x00\x00\x00\x08\x00\x01\x00\x00\x00\x00\x00\x01\x00\x01\x00\x00\x00\x00\x00\x00\x00\x01\x00\x00\x00\x01\x00\x00\x00\x01\x00\x00\x00\x01\x00\x01\x00\x01\x00\x01\x00\x00\x00\x00\x00\x01\x00\x01\x00\x00\x00\x01\x00\x01\x00\x01\x00\x01\x00\x00\x00\x01\x00\x01\x00\x01\x00\x01";
    let over =
        b"CELLOAMR\x00\x01\x00\x00\x00\x3cMesh {\n  array = [1, 1, 1];\n  block = 4;\n  max_level = 1;\n}\n\x00\x00\x00\x00\x00\x00\x00\x02\x00\x00\x00\x00\x00\x00\x00\x00\x00\x01\x00\x00\x00\x00\x00\x00";
    let order = LeafFault::Order { at: 1 };
    let overlap = LeafFault::Overlap { a: 0, b: 1 };
    is_refused(alloc, swapped, CheckFault::Leaves(order))
        && is_refused(alloc, over, CheckFault::Leaves(overlap))
}

#[test]
fn leaves_that_are_refused(rt: HostRuntime) {
    assert!(rt; words(rt.alloc()));
    assert!(rt; meshes(rt.alloc()));
}

/// Whether a file with these totals and these gone amounts has this fault.
fn end_has(alloc: Global, end: &[u8], fault: CheckFault) -> bool {
    has_fault(alloc, FRONT, LEAF, end, fault)
}

/// The fault of a stated total of 0, where the sum is 1.
fn other_total() -> CheckFault {
    CheckFault::Total {
        field: 0,
        stated: 0,
        summed: 1,
    }
}

/// Whether a stated total that isn't the sum is refused, also where the balance is off too, and a balance that is off.
fn sums(alloc: Global) -> bool {
    let balance = CheckFault::Balance {
        field: 0,
        held: 2,
        initial: 1,
    };
    let none = b"\x00\x00\x00\x00\x00\x00\x00\x00\x00\x00\x00\x00\x00\x00\x00\x00";
    let both = b"\x00\x00\x00\x00\x00\x00\x00\x00\x00\x00\x00\x00\x00\x00\x00\x02";
    let gone = b"\x00\x00\x00\x00\x00\x00\x00\x01\x00\x00\x00\x00\x00\x00\x00\x01";
    end_has(alloc, none, other_total())
        && end_has(alloc, both, other_total())
        && end_has(alloc, gone, balance)
}

#[test]
fn sums_that_are_off(rt: HostRuntime) {
    assert!(rt; sums(rt.alloc()));
}
