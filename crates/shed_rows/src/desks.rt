//! Looms beside a desk, by hand and in threads.
ghost use Rattle.std.specs.Prelude.{◌≡◌, ◌<◌, [], ◌∷◌, ◌++◌, length, slice_get, IfOk, MatchOption};
ghost use Rattle.std.specs.Thread.{IsSync};
ghost use Rattle.card_image.specs.Sets.{design_by};
ghost use Rattle.shed_publish.specs.Versions.{version_of, IsPublished};

use crate::expect::expect;
use card_image::card_set::CardSet;
use casting_out::casting::Casting;
use mill_base::memory::OutOfMemory;
use mill_base::size::Size;
use point_paper::bit_paper::BitPaper;
use shed_publish::desk_end::{DeskEnd, Seat, desk_end};
use shed_publish::loom_end::LoomEnd;
use shed_publish::newest::Newest;
use std::alloc::Global;
use std::process::Abort;
use std::sync::{Arc, Wait};
use std::test::Fail;
use std::thread::join;

fn two_hooks(alloc: Global) -> Result<Casting, Fail>
    ensures { IfOk result (λ c. length c.columns ≡ 2) }
{
    Ok(Casting::build(alloc, 2, &[], 2)?)
}

// A version of one card that has a hole at the hook of one column.
fn newest(
    alloc: Global,
    casting: &Casting,
    version: u32,
    column: u32,
) -> Result<Newest, OutOfMemory>
    requires casting { length casting.now.columns ≡ 2 }
    requires column { column < 2 }
    ensures version { IfOk result (λ n. n.version ≡ version) }
    ensures design { IfOk result (λ n. (version_of n).cards.design ≡ design_by casting.now 1) }
{
    let size = Size {
        columns: 2,
        picks: 1,
    };
    let mut bits = BitPaper::new(alloc, size)?;
    bits.set(column, 0, true);
    let cards = Arc::new(alloc, CardSet::cut(alloc, &bits, casting)?)?;
    Ok(Newest { version, cards })
}

fn number(end: &mut LoomEnd) -> Option<u32> {
    end.begin().map(|n| n.version)
}

fn counts(end: &LoomEnd) -> (u64, u64) {
    (end.readings(), end.missed())
}

fn follow<R: Abort + Wait>(rt: &R, desk: &mut DeskEnd, one: Newest, two: Newest) -> Result<(), Fail>
    requires one { IsPublished (desk.old.list ++ version_of one ∷ []) }
    requires two { IsPublished ((desk.old.list ++ version_of one ∷ []) ++ version_of two ∷ []) }
{
    let (Seat::Reads(mut a), Seat::Reads(mut b)) = (desk.seat(), desk.seat()) else {
        return Err(Fail::from(OutOfMemory));
    };
    assert_eq!(rt; (number(&mut a), number(&mut b)), (Some(0), Some(0)));
    desk.publish(rt, one)?;
    a.learn(desk.tell());
    assert_eq!(rt; number(&mut a), Some(1));
    desk.publish(rt, two)?;
    assert_eq!(rt; desk.tell().version(), 2);
    a.learn(desk.tell());
    b.learn(desk.tell());
    assert_eq!(rt; (number(&mut a), number(&mut b)), (Some(2), Some(2)));
    assert_eq!(rt; (counts(&a), counts(&b)), ((3, 0), (2, 0)));
    assert!(rt; a.meet(desk.tell(), 1));
    assert!(rt; b.meet(desk.tell(), 0));
    assert_eq!(rt; (counts(&a), counts(&b)), ((4, 0), (3, 0)));
    Ok(())
}

#[test]
fn two_looms_follow_the_desk(rt: HostRuntime) -> Result<(), Fail> {
    let alloc = rt.alloc();
    let casting = two_hooks(alloc)?;
    let zero = newest(alloc, &casting, 0, 0)?;
    let one = newest(alloc, &casting, 1, 1)?;
    let two = newest(alloc, &casting, 2, 0)?;
    let mut desk = desk_end(&rt, alloc, zero, 2)?;
    let followed = follow(&rt, &mut desk, one, two);
    let refused = desk.refused();
    desk.close(&rt);
    assert_eq!(rt; refused, 0);
    followed
}

// A desk with one place, and the end of another desk, which finds none at first.
fn crowd<R: Abort + Wait>(rt: &R, desk: &mut DeskEnd, other: &mut DeskEnd) -> Result<(), Fail> {
    let (Seat::Reads(a), Seat::Reads(mut b)) = (desk.seat(), other.seat()) else {
        return Err(Fail::from(OutOfMemory));
    };
    assert!(rt; matches!(desk.seat(), Seat::Later));
    assert_eq!(rt; desk.refused(), 1);
    b.learn(desk.tell());
    assert_eq!(rt; (desk.refused(), other.refused()), (2, 0));
    assert_eq!(rt; number(&mut b), None);
    assert!(rt; !b.meet(desk.tell(), 0));
    assert_eq!(rt; counts(&b), (0, 2));
    drop(a);
    b.learn(desk.tell());
    assert_eq!(rt;
        (desk.refused(), number(&mut b), counts(&b)),
        (2, Some(0), (1, 2))
    );
    Ok(())
}

#[test]
fn a_place_is_given_to_one_loom_at_a_time(rt: HostRuntime) -> Result<(), Fail> {
    let alloc = rt.alloc();
    let casting = two_hooks(alloc)?;
    let zero = newest(alloc, &casting, 0, 0)?;
    let zero_too = newest(alloc, &casting, 0, 1)?;
    let mut desk = desk_end(&rt, alloc, zero, 1)?;
    let result = match desk_end(&rt, alloc, zero_too, 1) {
        Ok(mut other) => {
            let result = crowd(&rt, &mut desk, &mut other);
            other.close(&rt);
            result
        }
        Err(refusal) => Err(Fail::from(refusal)),
    };
    desk.close(&rt);
    result
}

// The holes of the first card.
fn holes(newest: &Newest) -> Option<u8> {
    if newest.cards.picks() == 0 {
        return None;
    }
    newest.cards.card(0).first().copied()
}

// The version that may be published next, with cards like those of the first.
fn next_version(
    alloc: Global,
    casting: &Casting,
    desk: &DeskEnd,
    column: u32,
) -> Result<Newest, OutOfMemory>
    requires casting { length casting.now.columns ≡ 2 }
    requires first { MatchOption (slice_get desk.now.list 0) ⊥ (λ v. v.cards.design ≡ design_by casting.now 1) }
    requires column { column < 2 }
    ensures { IfOk result (λ n. IsPublished (desk.now.list ++ version_of n ∷ [])) }
{
    let Some(version) = desk.version().checked_add(1) else {
        return Err(OutOfMemory);
    };
    let next = newest(alloc, casting, version, column)?;
    Ok(next)
}

// One version more.
fn publish_next<R: Wait>(
    rt: &R,
    alloc: Global,
    casting: &Casting,
    desk: &mut DeskEnd,
) -> Result<(), OutOfMemory>
    requires casting { length casting.now.columns ≡ 2 }
    requires first { MatchOption (slice_get desk.old.list 0) ⊥ (λ v. v.cards.design ≡ design_by casting.now 1) }
    ensures first { MatchOption (slice_get desk.new.list 0) ⊥ (λ v. v.cards.design ≡ design_by casting.now 1) }
{
    let next = next_version(alloc, casting, desk, 0)?;
    desk.publish(rt, next)?;
    Ok(())
}

// One version more; where memory is refused to it, another one of the same number in its place. It answers the holes of
// that one's card.
fn try_again<R: Wait>(
    rt: &R,
    alloc: Global,
    casting: &Casting,
    desk: &mut DeskEnd,
) -> Result<u8, OutOfMemory>
    requires casting { length casting.now.columns ≡ 2 }
    requires first { MatchOption (slice_get desk.old.list 0) ⊥ (λ v. v.cards.design ≡ design_by casting.now 1) }
    ensures first { MatchOption (slice_get desk.new.list 0) ⊥ (λ v. v.cards.design ≡ design_by casting.now 1) }
{
    let one = next_version(alloc, casting, desk, 1)?;
    let again = next_version(alloc, casting, desk, 0)?;
    if desk.publish(rt, one).is_ok() {
        return Ok(0x40);
    }
    desk.publish(rt, again)?;
    Ok(0x80)
}

// So many versions, of which the end reads each.
fn try_many<R: Abort + Wait>(
    rt: &R,
    alloc: Global,
    casting: &Casting,
    desk: &mut DeskEnd,
    count: u32,
) -> Result<(), Fail>
    requires casting { length casting.now.columns ≡ 2 }
    requires first { MatchOption (slice_get desk.old.list 0) ⊥ (λ v. v.cards.design ≡ design_by casting.now 1) }
{
    let Seat::Reads(mut end) = desk.seat() else {
        return Err(Fail::from(OutOfMemory));
    };
    for k in 0..count {
        assert_eq!(rt; (desk.version(), number(&mut end)), (k, Some(k)));
        let want = try_again(rt, alloc, casting, desk)?;
        assert_eq!(rt; desk.version(), k + 1);
        let newest = end.begin();
        assert_eq!(rt; newest.as_ref().map(|n| n.version), Some(k + 1));
        assert_eq!(rt; newest.as_ref().and_then(|n| holes(n)), Some(want));
    }
    Ok(())
}

#[test]
fn a_publication_that_was_refused_leaves_nothing(rt: HostRuntime) -> Result<(), Fail> {
    let alloc = rt.alloc();
    let casting = two_hooks(alloc)?;
    let zero = newest(alloc, &casting, 0, 0)?;
    let mut desk = desk_end(&rt, alloc, zero, 1)?;
    let result = try_many(&rt, alloc, &casting, &mut desk, 6);
    desk.close(&rt);
    result
}

// So many ends that read.
fn seats(alloc: Global, desk: &mut DeskEnd, count: u32) -> Result<Vec<LoomEnd>, Fail> {
    let mut ends = Vec::new(alloc);
    for _ in 0..count {
        let Seat::Reads(end) = desk.seat() else {
            return Err(Fail::from(OutOfMemory));
        };
        ends.push(end)?;
    }
    Ok(ends)
}

// Whether an end reads this version, before and after it learns the list, and meets the desk.
fn is_served(desk: &mut DeskEnd, end: &mut LoomEnd, version: u32) -> bool {
    let before = number(end);
    end.learn(desk.tell());
    let after = number(end);
    before == Some(version) && after == Some(version) && end.meet(desk.tell(), 0)
}

fn are_served(desk: &mut DeskEnd, ends: &mut Vec<LoomEnd>, version: u32) -> bool {
    for end in ends.iter_mut() {
        if !is_served(desk, end, version) {
            return false;
        }
    }
    true
}

#[test]
fn sixty_four_looms_read_the_last_of_257_versions(rt: HostRuntime) -> Result<(), Fail> {
    let alloc = rt.alloc();
    let casting = two_hooks(alloc)?;
    let zero = newest(alloc, &casting, 0, 0)?;
    let mut desk = desk_end(&rt, alloc, zero, 64)?;
    let published = publish_many(&rt, alloc, &casting, &mut desk, 256);
    let mut ends = seats(alloc, &mut desk, 64);
    let served = match &mut ends {
        Ok(ends) => are_served(&mut desk, ends, 256),
        Err(_) => false,
    };
    let refused = desk.refused();
    desk.close(&rt);
    expect(
        &rt,
        published.is_ok() && served && refused == 0,
        "none refused",
    );
    let closed = ends?.pop().map(|mut end| number(&mut end));
    expect(&rt, closed == Some(None), "the desk is closed");
    Ok(())
}

fn publish_many<R: Wait>(
    rt: &R,
    alloc: Global,
    casting: &Casting,
    desk: &mut DeskEnd,
    count: u32,
) -> Result<(), OutOfMemory>
    requires casting { length casting.now.columns ≡ 2 }
    requires first { MatchOption (slice_get desk.old.list 0) ⊥ (λ v. v.cards.design ≡ design_by casting.now 1) }
{
    for _ in 0..count {
        publish_next(rt, alloc, casting, desk)?;
    }
    Ok(())
}

// Reads until the version is there, and tells whether versions ever fell.
fn read_until(end: &mut LoomEnd, last: u32, turns: u32) -> bool {
    let mut seen = 0;
    for _ in 0..turns {
        let Some(version) = number(end) else {
            return false;
        };
        if version < seen {
            return false;
        }
        seen = version;
        if seen == last {
            return true;
        }
    }
    false
}

#[test]
fn looms_read_in_threads_while_the_desk_publishes(rt: HostRuntime) -> Result<(), Fail> {
    let alloc = rt.alloc();
    let casting = two_hooks(alloc)?;
    let zero = newest(alloc, &casting, 0, 0)?;
    let mut desk = desk_end(&rt, alloc, zero, 2)?;
    let (a, b) = (desk.seat(), desk.seat());
    let result = match (a, b) {
        (Seat::Reads(mut a), Seat::Reads(mut b)) => {
            let lent = &mut desk;
            let (told, published) = join(
                &rt,
                move || {
                    let told = read_until(&mut a, 100, 100_000_000);
                    told && read_until(&mut b, 100, 1) && a.missed() == 0
                },
                move || publish_many(&rt, alloc, &casting, lent, 100).is_ok(),
            );
            (told, published)
        }
        _ => (false, false),
    };
    desk.close(&rt);
    assert_eq!(rt; result, (true, true));
    Ok(())
}
