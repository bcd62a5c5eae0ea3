//! Parked misses as the device keeps them.
use vi_bytes::Need;
use vi_iotlb::Frame;
use vi_parked::Parked;

const MISS: Frame = Frame::Miss {
    iova: 0x1000,
    len: 4,
    need: Need::Read,
};

#[test]
fn one_frame_is_parked_a_place(rt: HostRuntime) {
    let mut parked = Parked::new();
    assert_eq!(rt; parked.peek(3), None);
    parked.park(3, MISS);
    let seen = [parked.peek(3), parked.peek(2)];
    assert_eq!(rt; seen, [Some(MISS), None]);
    let taken = [parked.take(2), parked.take(3), parked.take(3)];
    assert_eq!(rt; taken, [None, Some(MISS), None], "it is taken once");
}
