use cal_base::{Image, KeptUpdate, UpdateWords};
use cal_terms::WordKind;
use std::test::Fail;

#[test]
fn an_image_holds_what_was_stated_and_set(rt: HostRuntime) -> Result<(), Fail> {
    let mut image = Image::make(rt.alloc(), 70, &[1, 69], &[(0, 5), (65, -1)])?;
    assert_eq!(rt; image.len(), 70);
    assert_eq!(rt; (image.word(0), image.word(1), image.word(65)), (5, 0, -1));
    assert_eq!(rt;
        (image.kind(0), image.kind(69)),
        (WordKind::Ordinary, WordKind::Tally)
    );
    image.set(66, 7);
    image.set(66, 7);
    assert_eq!(rt; (image.version(0), image.version(1)), (Some(0), Some(2)));
    let page = image.page(1);
    assert_eq!(rt; page.len(), 64);
    assert_eq!(rt; &page[..8], [0, -1, 7, 0, 0, 0, 0, 0].as_slice());
    Ok(())
}

#[test]
fn an_update_is_read_in_order(rt: HostRuntime) -> Result<(), Fail> {
    let alloc = rt.alloc();
    let mut update = KeptUpdate::empty(alloc);
    assert_eq!(rt; update.next_from(0), None);
    for (a, v) in [(9, 1), (3, -2), (u32::MAX, 4), (9, 5)] {
        update.put(a, v)?;
    }
    let copy = KeptUpdate::copy_of(alloc, &update)?;
    for (from, next) in [
        (0, Some((3, -2))),
        (4, Some((9, 5))),
        (10, Some((u32::MAX, 4))),
    ] {
        assert_eq!(rt; update.next_from(from), next, "from {from}");
        assert_eq!(rt; copy.next_from(from), next, "from {from}");
    }
    assert_eq!(rt; (copy.get(9), copy.get(8)), (Some(5), None));
    Ok(())
}
