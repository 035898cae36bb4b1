//! Frames and segments of pages, by the calls that an undo log stands on.

ghost use Rattle.std.specs.Prelude.{◌≡◌, ◌≤◌, false};
ghost use Rattle.hy_frames.specs.FrameTable.{count_of, lent_at};

use hy_frames::{FrameNo, Frames, Shortage};
use hy_space::Space;
use std::process::Abort;

/// A table with one frame of zeros.
fn one_frame(rt: &(impl Abort + AllocGlobal), max: u64) -> (Frames<256>, FrameNo)
    requires { (1 ≤ max) × (max ≤ 100) }
    ensures { (count_of result.0 result.1 ≡ 1) × (lent_at result.0 result.1 ≡ false) }
{
    let mut frames: Frames<256> = Frames::new(rt.alloc(), max);
    let frame = frames.take_zero().expect(rt, "a frame");
    (frames, frame)
}

#[test]
fn a_hold_keeps_its_bytes(rt: HostRuntime) {
    let (mut frames, frame) = one_frame(&rt, 1);
    assert_eq!(rt; frames.free(), 0);
    let hold = frames.hold(frame).expect(&rt, "a hold");
    assert!(rt; !frames.is_private(frame));
    frames.take_back(frame).expect(&rt, "a page of its own");
    assert!(rt; frames.is_private(frame));
    frames.write(frame, 3, b"new");
    assert_eq!(rt; frames.page(frame).field(3, 2), 0x656e);
    assert_eq!(rt; hold.page().field(3, 2), 0);
    frames.share(frame);
    assert_eq!(rt; frames.shared(), 1);
    frames.drop_one(frame);
    frames.drop_one(frame);
    assert_eq!(rt; frames.free(), 1);
}

#[test]
fn a_freed_page_is_taken_again(rt: HostRuntime) {
    let (mut frames, frame) = one_frame(&rt, 1);
    frames.write(frame, 3, b"old");
    frames.drop_one(frame);
    assert_eq!(rt; frames.count(frame), 0);
    let again = frames.take_zero().expect(&rt, "a frame");
    assert_eq!(rt; frames.page(again).field(3, 2), 0);
    assert!(rt; frames.take_zero() == Err(Shortage::NoFrame));
}

#[test]
fn a_copy_is_a_page_of_its_own(rt: HostRuntime) {
    let (mut frames, first) = one_frame(&rt, 2);
    frames.write(first, 240, b"sixteen at last!");
    let second = frames.take_copy(first).expect(&rt, "a frame");
    frames.write(second, 0, b"sixteen at first");
    assert_eq!(rt; frames.page(second).field(248, 8), 0x217473616c207461);
    assert_eq!(rt; frames.page(second).field(8, 8), 0x7473726966207461);
}

#[test]
fn a_child_keeps_what_it_saw(rt: HostRuntime) {
    let mut space: Space<256> = Space::new(rt.alloc(), 1, 2).expect(&rt, "a space");
    let page = space.grow(0).expect(&rt, "a page");
    space.write(0, page, 10, b"one").expect(&rt, "a write");
    let child = space.fork().expect(&rt, "a child");
    space.write(0, page, 10, b"two").expect(&rt, "a write");
    assert_eq!(rt; space.read(0, page, 10, 2), 0x7774);
    let holds = space.holds(child).expect(&rt, "the holds");
    space.close(child);
    assert_eq!(rt; space.free(), 1);
    assert_eq!(rt; holds.len(), 1);
    assert_eq!(rt; holds[0].len(), 1);
    assert_eq!(rt; holds[0][0].page().field(10, 2), 0x6e6f);
}

#[test]
fn a_page_is_cut_off(rt: HostRuntime) {
    let mut space: Space<256> = Space::new(rt.alloc(), 1, 2).expect(&rt, "a space");
    let page = space.grow(0).expect(&rt, "a page");
    space.write(0, page, 0, b"one").expect(&rt, "a write");
    space.set_max(1).expect(&rt, "a limit");
    space.cut(0, 0);
    assert_eq!(rt; space.free(), 1);
}
