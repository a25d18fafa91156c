//! A caller of `frames`.

use frames::Pool;
use machine::id::FrameId;
use std::test::Fail;

#[test]
fn a_frame_is_taken_and_given_back(rt: HostRuntime) -> Result<(), Fail> {
    let mut pool = Pool::open(rt.alloc(), 1, 0)?;
    if let Some(mut frame) = pool.take() {
        frame.clear();
        frame.write(5, 7);
        let seen = (frame.number(), frame.read(5), frame.read(6), pool.free());
        pool.give(frame);
        assert_eq!(rt; seen, (FrameId(0), 7, 0, 0));
    }
    assert_eq!(rt; pool.free(), 1);
    pool.close();
    Ok(())
}
