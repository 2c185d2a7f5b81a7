//! Pending letters in the order of their ranks.

use crate::tests::told::holds;
use std::alloc::{AllocError, AllocGlobal, Global};
use std::mem::size_of;
use std::process::Abort;
use std::test::*;
use vt_key::{Event, Key, Letter, Rank, Sign, Stamp, When};
use vt_list::Parcel;
use vt_pending::Pending;

fn rank(key: (u64, u32, u64), stamp: (u32, u64)) -> Rank {
    Rank {
        key: Key::new(When::tick(key.0), key.1, key.2),
        stamp: Stamp {
            worker: stamp.0,
            serial: stamp.1,
        },
    }
}

fn letter(alloc: Global, rank: Rank) -> Result<Parcel<Letter<u64>>, Fail> {
    let event = Event {
        rank,
        dest: 0,
        payload: 0,
    };
    let sign = Sign::Plus;
    match Parcel::new(alloc, Letter { event, sign }) {
        Ok(parcel) => Ok(parcel),
        Err(_letter) => Err(Fail::from(AllocError)),
    }
}

// Puts a letter of this rank in. A caller that doesn't know whether the rank is new asks first.
fn put(alloc: Global, queue: &mut Pending<u64>, rank: Rank) -> Result<bool, Fail> {
    let letter = letter(alloc, rank)?;
    let is_new = !queue.holds(letter.get().event.rank);
    if is_new {
        queue.insert(letter);
    }
    Ok(is_new)
}

// Whether this rank was taken.
fn is_taken(parcel: Option<Parcel<Letter<u64>>>, want: Rank) -> bool {
    match parcel {
        Some(parcel) => parcel.into_value().event.rank == want,
        None => false,
    }
}

fn is_least(queue: &Pending<u64>, want: Rank) -> bool {
    match queue.least() {
        Some(letter) => letter.event.rank == want,
        None => false,
    }
}

fn is_taken_first(queue: &mut Pending<u64>, want: Rank) -> bool {
    is_taken(queue.take_least(), want)
}

fn is_taken_by_stamp(queue: &mut Pending<u64>, want: Rank) -> bool {
    is_taken(queue.take_stamp(want.stamp), want)
}

#[test]
fn letters_leave_by_stamp_and_by_rank(rt: HostRuntime) -> Result<(), Fail> {
    let first = rank((3, 1, 1), (1, 2));
    let second = rank((2, 0, 1), (0, 1));
    let third = rank((3, 1, 1), (1, 1));
    let mut queue = Pending::new(rt.alloc());
    put_all(&rt, &mut queue, &[first, second, third])?;
    holds(
        &rt,
        queue.len() == 3 && is_least(&queue, second),
        "three letters",
    );
    holds(
        &rt,
        is_taken_by_stamp(&mut queue, third),
        "the third by its stamp",
    );
    holds(&rt, is_taken_first(&mut queue, second), "the second");
    holds(&rt, is_taken_first(&mut queue, first), "the first");
    holds(
        &rt,
        queue.take_least().is_none() && queue.is_empty(),
        "no more",
    );
    Ok(())
}

// Puts letters of these ranks in. Each must be new.
fn put_all(
    rt: &(impl Abort + AllocGlobal),
    queue: &mut Pending<u64>,
    ranks: &[Rank],
) -> Result<(), Fail> {
    for rank in ranks {
        holds(rt, put(rt.alloc(), queue, *rank)?, "a new rank");
    }
    Ok(())
}

// Whether this rank is found by its stamp.
fn is_found(queue: &Pending<u64>, want: Rank) -> bool {
    match queue.find_stamp(want.stamp) {
        Some(letter) => letter.event.rank == want,
        None => false,
    }
}

// Letters at these ticks must come out as the second ticks. Then the mask has these bits.
fn leave_in_order(
    rt: &(impl Abort + AllocGlobal),
    ticks: &[u64],
    want: &[u64],
    mask: u64,
) -> Result<(), Fail> {
    let mut queue = Pending::new(rt.alloc());
    for tick in ticks {
        put_all(rt, &mut queue, &[rank((*tick, 0, 1), (0, 1))])?;
    }
    holds(rt, queue.mask() == mask, "a bit for each list");
    for tick in want {
        let first = is_taken_first(&mut queue, rank((*tick, 0, 1), (0, 1)));
        holds(rt, first, "the least letter");
    }
    holds(rt, queue.is_empty() && queue.mask() == 0, "no letter");
    Ok(())
}

/// Ticks that are equal modulo 64 share a list, and bit b tells whether list b has a letter.
#[test]
fn ticks_leave_in_order(rt: HostRuntime) -> Result<(), Fail> {
    let lists = 1 | 1 << 1 | 1 << 63;
    leave_in_order(&rt, &[127, 64, 0, 63, 65], &[0, 63, 64, 65, 127], lists)?;
    let far = 4_611_686_018_427_387_903;
    leave_in_order(&rt, &[far, 63], &[63, far], 1 << 63)
}

/// The first in the order of ranks is taken, whichever list it stands in.
#[test]
fn a_stamp_finds_the_letter_of_least_rank(rt: HostRuntime) -> Result<(), Fail> {
    let (later, earlier) = (rank((64, 0, 1), (0, 7)), rank((1, 0, 0), (0, 7)));
    let mut queue = Pending::new(rt.alloc());
    put_all(&rt, &mut queue, &[later, earlier])?;
    holds(
        &rt,
        queue.mask() == 0b11 && is_found(&queue, earlier),
        "both",
    );
    for want in [earlier, later] {
        holds(&rt, is_taken_by_stamp(&mut queue, want), "by its stamp");
    }
    let is_none = queue.take_stamp(later.stamp).is_none();
    holds(&rt, is_none && queue.mask() == 0, "no more");
    Ok(())
}

#[test]
fn a_queue_is_three_words(rt: HostRuntime) {
    holds(&rt, size_of::<Pending<u64>>() == 24, "24 bytes");
}
