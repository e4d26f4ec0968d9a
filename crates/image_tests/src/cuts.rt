// Refusals 1 and 2: images that end too early, or do not begin with "HOLD".
use crate::images::sample;
use crate::outcome::{TAKEN, Told, told};
use image::{Census, check};
use rights::Refusal;
use std::test::Fail;

// Cut anywhere, in a header, a slot, a page or a thread: refused at the length.
#[test]
fn ends_too_early(rt: HostRuntime) -> Result<(), Fail> {
    let image = sample(rt.alloc())?;
    let census = Census {
        objects: 7,
        threads: 2,
        lines: 1,
    };
    assert_eq!(rt; check(&image, 4), Ok(census));
    for length in 0..image.len() {
        assert_eq!(rt; told(check(&image[..length], 4)), Err((1, length)));
    }
    Ok(())
}

// "HOLD" is compared as far as there are bytes. An image of no objects ends after six.
const SHORT: &[(&[u8], Told)] = &[
    (b"", Err((1, 0))),
    (b"HOL", Err((1, 3))),
    (b"HOLD\0", Err((1, 5))),
    (b"HOLD\0\0", TAKEN),
    (b"HOLD\0\0\0", Err((1, 6))),
    (b"HOLD\0\0HOLD", Err((1, 6))),
    (b"X", Err((2, 0))),
    (b"HX", Err((2, 0))),
    (b"HOX", Err((2, 0))),
    (b"HOLX", Err((2, 0))),
    (b"HOL\0\0\0", Err((2, 0))),
    (b"hOLD\0\0", Err((2, 0))),
];

#[test]
fn short_images(rt: HostRuntime) -> Result<(), Fail> {
    for &(image, expected) in SHORT {
        assert_eq!(rt; told(check(image, 0)), expected, "{image:?}");
    }
    let text = format!(in rt.alloc(); "{} and {}", Refusal::Magic, Refusal::Frames(4097))?;
    assert_eq!(rt; text.as_str(), "refused 2 at 0 and refused 5 at 4097");
    Ok(())
}
