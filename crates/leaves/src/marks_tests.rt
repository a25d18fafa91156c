//! What no clause says: each call once, threads that really run at the same time, and a caller that is alone.

ghost use Rattle.std.specs.Prelude.{◌≡◌, ℕ, ◌+◌, ◌/◌, ◌%◌, ◌^◌, ◌<◌, ◌≤◌, ◌==◌, if◌then◌else◌, All, OnOk};
ghost use Rattle.std.specs.Int.{bit_at};
ghost use Rattle.marks.specs.Logs.{IsHarvested};

use marks::{Found, Marks, Seat};
use std::alloc::{AllocError, Global};
use std::test::Fail;
use std::thread;
use std::thread::Threads;

const FRAMES: usize = 256;

/// For each frame, how often a thread was the one to mark it, less how often it took the mark; modulo 2^32.
type Counts = [u32; FRAMES];

#[derive(Clone, Copy, Drop)]
enum Work {
    Set,
    Harvest,
}

#[derive(Drop)]
struct Job {
    work: Work,
    rounds: u32,
    seat: Seat,
}

fn set_each(marks: &Marks, seat: &mut Seat, counts: &mut Counts)
    requires frames { marks.now.frames ≡ 256 }
    requires of_these { seat.old.table ≡ marks.now.table }
    ensures { seat.new.table ≡ seat.old.table }
{
    for frame in 0..FRAMES {
        if marks.set(seat, frame as u32) == Found::Clear {
            counts[frame] = counts[frame].wrapping_add(1);
        }
    }
}

fn count_taken(counts: &mut Counts, word: u32, bits: u64)
    requires { word < 4 }
{
    for place in 0..64u32 {
        let frame = (64 * word + place) as usize;
        counts[frame] = counts[frame].wrapping_sub(((bits >> place) & 1) as u32);
    }
}

fn harvest_each(marks: &Marks, seat: &mut Seat, counts: &mut Counts)
    requires frames { marks.now.frames ≡ 256 }
    requires of_these { seat.old.table ≡ marks.now.table }
    ensures { seat.new.table ≡ seat.old.table }
{
    for word in 0..4u32 {
        if marks.load(word) != 0 {
            let bits = marks.harvest(seat, word);
            count_taken(counts, word, bits);
        }
    }
}

fn counts_of(marks: &Marks, job: Job) -> Counts
    requires frames { marks.now.frames ≡ 256 }
    requires of_these { job.seat.table ≡ marks.now.table }
{
    let Job {
        work,
        rounds,
        mut seat,
    } = job;
    let mut counts = [0; FRAMES];
    for _round in 0..rounds {
        match work {
            Work::Set => set_each(marks, &mut seat, &mut counts),
            Work::Harvest => harvest_each(marks, &mut seat, &mut counts),
        }
    }
    counts
}

/// Adds a job with a seat of its own, if there is memory for it.
fn add_job(marks: &Marks, first: &mut Seat, work: Work, rounds: u32, jobs: &mut Vec<Job>)
    requires parts { 2 ≤ first.old.log.parts }
    requires of_these { first.old.table ≡ marks.now.table }
    requires jobs { All (λ j. j.seat.table ≡ marks.now.table) jobs.old.items }
    ensures parts { first.new.log.parts + 1 ≡ first.old.log.parts }
    ensures of_these { first.new.table ≡ first.old.table }
    ensures jobs { All (λ j. j.seat.table ≡ marks.now.table) jobs.new.items }
{
    let seat = marks.seat(first);
    // If there is no memory for the job, it is missing, which the caller has to notice.
    let _ = jobs.push(Job { work, rounds, seat });
}

/// What the threads count of the frame together.
fn total(counts: &[Counts], frame: usize) -> u32
    requires { frame < 256 }
{
    counts
        .iter()
        .fold(0u32, |sum, by_thread| sum.wrapping_add(by_thread[frame]))
}

/// Does each job on a thread of its own.
fn do_all<R: Threads + Sync>(
    rt: &R,
    marks: &Marks,
    jobs: Vec<Job>,
) -> Result<Vec<Counts>, AllocError>
    requires frames { marks.now.frames ≡ 256 }
    requires of_these { All (λ j. j.seat.table ≡ marks.now.table) jobs.items }
{
    thread::map_vec(
        rt,
        jobs,
        &|job: Job|
            requires { (marks.now.frames ≡ 256) × (job.seat.table ≡ marks.now.table) }
        { counts_of(marks, job) },
    )
}

/// The first frame whose marks by the threads are not those that they took and the one that is left.
fn lost(counts: &[Counts], words: [u64; 4]) -> Option<usize> {
    for frame in 0..FRAMES {
        let left = ((words[frame / 64] >> (frame % 64) as u32) & 1) as u32;
        if total(counts, frame) != left {
            return Some(frame);
        }
    }
    None
}

#[test]
fn no_mark_is_lost_or_taken_twice(rt: HostRuntime) -> Result<(), Fail> {
    let (marks, mut first) = Marks::open(rt.alloc(), FRAMES as u32)?;
    let mut jobs = Vec::new(rt.alloc());
    add_job(&marks, &mut first, Work::Set, 1000, &mut jobs);
    add_job(&marks, &mut first, Work::Harvest, 1000, &mut jobs);
    add_job(&marks, &mut first, Work::Set, 1000, &mut jobs);
    add_job(&marks, &mut first, Work::Set, 1000, &mut jobs);
    add_job(&marks, &mut first, Work::Harvest, 1000, &mut jobs);
    add_job(&marks, &mut first, Work::Set, 1000, &mut jobs);
    let counts = do_all(&rt, &marks, jobs)?;
    let words = [marks.load(0), marks.load(1), marks.load(2), marks.load(3)];
    assert_eq!(rt; (counts.len(), lost(&counts, words)), (6, None));
    Ok(())
}

/// Has four threads do the work once at the same time, each with a seat of its own.
fn four_at_once<R: Threads + Sync>(
    rt: &R,
    alloc: Global,
    marks: &Marks,
    first: &mut Seat,
    work: Work,
) -> Result<Vec<Counts>, AllocError>
    requires frames { marks.now.frames ≡ 256 }
    requires parts { 5 ≤ first.old.log.parts }
    requires of_these { first.old.table ≡ marks.now.table }
    ensures parts { OnOk result (first.new.log.parts + 4 ≡ first.old.log.parts) }
    ensures of_these { OnOk result (first.new.table ≡ first.old.table) }
{
    let mut jobs = Vec::new(alloc);
    add_job(marks, first, work, 1, &mut jobs);
    add_job(marks, first, work, 1, &mut jobs);
    add_job(marks, first, work, 1, &mut jobs);
    add_job(marks, first, work, 1, &mut jobs);
    do_all(rt, marks, jobs)
}

/// One thread of four marked each frame, and one of four took its mark.
fn mark_and_take<R: Threads + Sync>(
    rt: &R,
    alloc: Global,
    marks: &Marks,
    first: &mut Seat,
) -> Result<bool, AllocError>
    requires frames { marks.now.frames ≡ 256 }
    requires parts { 9 ≤ first.old.log.parts }
    requires of_these { first.old.table ≡ marks.now.table }
    ensures parts { OnOk result (first.new.log.parts + 8 ≡ first.old.log.parts) }
    ensures of_these { OnOk result (first.new.table ≡ first.old.table) }
{
    let set = four_at_once(rt, alloc, marks, first, Work::Set)?;
    let taken = four_at_once(rt, alloc, marks, first, Work::Harvest)?;
    Ok(set.len() == 4 && taken.len() == 4 && are_each_once(&set, &taken))
}

fn are_each_once(set: &[Counts], taken: &[Counts]) -> bool {
    for frame in 0..FRAMES {
        if total(set, frame) != 1 || total(taken, frame) != u32::MAX {
            return false;
        }
    }
    true
}

#[test]
fn a_frame_is_marked_again_after_each_harvest(rt: HostRuntime) -> Result<(), Fail> {
    let alloc = rt.alloc();
    let (marks, mut first) = Marks::open(alloc, FRAMES as u32)?;
    let found = [
        mark_and_take(&rt, alloc, &marks, &mut first)?,
        mark_and_take(&rt, alloc, &marks, &mut first)?,
        mark_and_take(&rt, alloc, &marks, &mut first)?,
    ];
    assert_eq!(rt; found, [true, true, true]);
    Ok(())
}

#[test]
fn two_seats_see_one_mark(rt: HostRuntime) -> Result<(), Fail> {
    let (marks, mut first) = Marks::open(rt.alloc(), 130)?;
    let mut second = marks.seat(&mut first);
    let parts = (first.parts(), second.parts());
    let found = [
        marks.set(&mut first, 129),
        marks.set(&mut second, 129),
        marks.set(&mut second, 3),
    ];
    let word = [marks.load(0), marks.harvest(&mut first, 0), marks.load(0)];
    assert_eq!(rt; parts, (4294967295, 1));
    assert_eq!(rt; found, [Found::Clear, Found::Marked, Found::Clear]);
    assert_eq!(rt; word, [8, 8, 0]);
    let mut seats = Vec::new(rt.alloc());
    seats.push(first)?;
    seats.push(second)?;
    let words = marks.close(seats);
    assert_eq!(rt; [words.get(0), words.get(2)], [0, 2]);
    Ok(())
}

/// The marks that a harvest takes right after a set. If no other caller sets or harvests, and nothing was left, they
/// are the mark of this frame alone.
fn mark_alone(marks: &Marks, seat: &mut Seat, frame: u32) -> u64
    requires in_range { frame < marks.now.frames }
    requires of_these { seat.old.table ≡ marks.now.table }
    requires parts { seat.old.log.parts ≡ 2 ^ 32 }
    requires harvested { IsHarvested seat.old.log }
    ensures one { (f : ℕ) → f / 64 ≡ frame / 64 → bit_at result (f % 64) ≡ (if f == frame then 1 else 0) }
    ensures table { seat.new.table ≡ seat.old.table }
    ensures parts { seat.new.log.parts ≡ 2 ^ 32 }
    ensures harvested { IsHarvested seat.new.log }
{
    marks.set(seat, frame);
    marks.harvest(seat, frame / 64)
}

#[test]
fn frames_at_the_ends_of_words(rt: HostRuntime) -> Result<(), Fail> {
    let (marks, mut seat) = Marks::open(rt.alloc(), 65537)?;
    let alone = [
        mark_alone(&marks, &mut seat, 0),
        mark_alone(&marks, &mut seat, 63),
        mark_alone(&marks, &mut seat, 64),
        mark_alone(&marks, &mut seat, 65536),
    ];
    let found = [
        marks.set(&mut seat, 63),
        marks.set(&mut seat, 64),
        marks.set(&mut seat, 65536),
        marks.set(&mut seat, 63),
    ];
    let words = [
        marks.load(0),
        marks.load(1),
        marks.load(2),
        marks.load(1024),
    ];
    assert_eq!(rt;
        (marks.frames(), alone, words),
        (65537, [1, 1 << 63, 1, 1], [1 << 63, 1, 0, 1])
    );
    assert_eq!(rt;
        found,
        [Found::Clear, Found::Clear, Found::Clear, Found::Marked]
    );
    Ok(())
}
