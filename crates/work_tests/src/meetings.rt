// Servers over blobs that several desks read at once.
use crate::cases::{Case, SERVER};
use crate::literals::{INPUT_1, INPUT_2, INPUT_3, INPUT_4, UNREAD};
use crate::serving::{first_twin, serve};
use outside::Blobs;
use outside_memory::{read_whole, store_whole};
use std::alloc::Global;
use std::test::Fail;

// Whether a blob is the bytes `abc`.
fn reads_abc<B: Blobs>(alloc: Global, blobs: &mut B, held: &B::Held) -> bool {
    match read_whole(alloc, blobs, held) {
        Ok(bytes) => bytes.as_slice() == b"abc".as_slice(),
        Err(_) => false,
    }
}

fn finds<B: Blobs>(alloc: Global, blobs: &mut B) -> bool {
    match blobs.adopt(7) {
        Ok(Some(held)) => reads_abc(alloc, blobs, &held),
        _ => false,
    }
}

fn lists<B: Blobs>(blobs: &mut B, numbers: &[u64]) -> bool {
    match blobs.list() {
        Ok(listed) => listed.as_slice() == numbers,
        Err(_) => false,
    }
}

// Whether the second finds and reads what the first stores, and the first lists that blob alone, and none once the second has
// removed it.
fn share<B: Blobs>(alloc: Global, first: &mut B, second: &mut B) -> bool {
    let stored = store_whole(first, 7, b"abc").is_ok();
    let found = finds(alloc, second);
    let listed = lists(first, &[7]);
    let removed = second.remove(7).is_ok();
    let lost = lists(first, &[]);
    stored && found && listed && removed && lost
}

// What one twin stores or removes all others see, and no call fails. The second is the only one that is to meet, so its read goes
// on at once.
#[test]
fn twins_share_their_blobs(rt: HostRuntime) -> Result<(), Fail> {
    let mut first = first_twin(rt.alloc(), 1)?;
    let mut second = first.member()?;
    assert!(rt; share(rt.alloc(), &mut first, &mut second));
    assert!(rt; first.faults() == 0 && second.faults() == 0);
    Ok(())
}

// All four are served at once: each reads a blob only when all do.
static OF_FOUR: Case = Case {
    members: 4,
    desks: &[&[INPUT_1], &[INPUT_2], &[INPUT_3], &[INPUT_4]],
    line: "calls 16\n",
    given: &[1, 1, 1, 1],
    ..SERVER
};

#[test]
fn four_desks_meet(rt: HostRuntime) -> Result<(), Fail> {
    serve(&rt, rt.alloc(), &OF_FOUR)
}

// Where one is missing nobody reads, as where desks were served one after another.
static OF_THREE: Case = Case {
    members: 4,
    desks: &[&[INPUT_1], &[INPUT_2], &[INPUT_3]],
    line: "calls 12\n",
    given: &[1, 1, 1],
    output: UNREAD,
    faults: 1,
    ..SERVER
};

#[test]
fn three_desks_of_four_do_not_meet(rt: HostRuntime) -> Result<(), Fail> {
    serve(&rt, rt.alloc(), &OF_THREE)
}
