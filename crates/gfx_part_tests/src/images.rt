use gfx_swap::Swaps;

#[test]
fn the_least_image_that_is_not_acquired_is_next(rt: HostRuntime) {
    let mut swaps = Swaps::new(rt.alloc());
    assert_eq!(rt; swaps.next_image(7), None);
    assert!(rt; swaps.add(7, 2).is_ok());
    assert_eq!(rt; swaps.next_image(7), Some(0));
    swaps.set(7, 0, true);
    assert_eq!(rt; swaps.next_image(7), Some(1));
    swaps.set(7, 1, true);
    assert_eq!(rt; swaps.next_image(7), None);
}
