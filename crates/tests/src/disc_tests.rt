// Examples: refusals at the edges, discs that are made and read back.
ghost use Rattle.std.specs.Prelude.{◌≡◌, ◌<◌, ◌≤◌, length};

use disc::{check, format, read};
use octets::Number;
use std::alloc::{AllocError, Global};
use std::process::Abort;
use std::test::Fail;
use turns::vocabulary::Sizes;

// The number and the place of the refusal, or (0, 0).
fn refusal(image: &[u8], lent: usize) -> (u8, usize) {
    match check::check(image, lent) {
        Ok(_) => (0, 0),
        Err(e) => (e.number(), e.place()),
    }
}

fn smallest() -> Sizes {
    Sizes {
        processes: 1,
        opens: 1,
        pipes: 0,
        handles: 3,
        memory: 4_096,
        pipe: 1,
        file: 0,
        files: 1,
        screens: 1,
        turn: 1,
    }
}

fn largest() -> Sizes {
    Sizes {
        processes: 64,
        opens: 256,
        pipes: 64,
        handles: 16,
        memory: 1_048_576,
        pipe: 4_096,
        file: 262_144,
        files: 64,
        screens: 16,
        turn: 65_535,
    }
}

// So many files, each with so many bytes, all different from file to file.
fn some_files(heap: Global, count: u8, long: usize) -> Result<Vec<Vec<u8>>, AllocError> {
    let mut files = Vec::new(heap);
    for f in 0..count {
        files.push(vec![in heap; f; long]?)?;
    }
    Ok(files)
}

// Enough for the frames of any disc.
const PLENTY: usize = 16_464 * 4_096;

// A size at its edges and beyond them; then the disc is as it was.
fn check_range(rt: &impl Abort, image: &mut [u8], at: usize, least: u32, most: u32)
    requires image_len { length image.old ≡ 2048 }
    requires at_bound { at ≤ 40 }
    requires most_bound { most < 1000000000 }
{
    let size = u32::read(image, at);
    if least > 0 {
        (least - 1).write(image, at);
        assert_eq!(rt; refusal(image, PLENTY), (3, at));
    }
    (most + 1).write(image, at);
    assert_eq!(rt; refusal(image, PLENTY), (3, at));
    most.write(image, at);
    assert_ne!(rt; refusal(image, PLENTY).0, 3);
    least.write(image, at);
    assert_ne!(rt; refusal(image, PLENTY).0, 3);
    size.write(image, at);
}

#[test]
fn sizes_have_ranges(rt: HostRuntime) -> Result<(), Fail> {
    let mut image = [0; 2_048];
    assert!(rt; format::format(&mut image, smallest(), &some_files(rt.alloc(), 1, 0)?).is_ok());
    check_range(&rt, &mut image, 4, 1, 64);
    check_range(&rt, &mut image, 8, 1, 256);
    check_range(&rt, &mut image, 12, 0, 64);
    check_range(&rt, &mut image, 16, 3, 16);
    check_range(&rt, &mut image, 20, 4_096, 1_048_576);
    check_range(&rt, &mut image, 20, 8_192, 12_288);
    check_range(&rt, &mut image, 24, 1, 4_096);
    check_range(&rt, &mut image, 28, 0, 262_144);
    check_range(&rt, &mut image, 32, 1, 64);
    check_range(&rt, &mut image, 36, 1, 16);
    check_range(&rt, &mut image, 40, 1, 65_535);
    Ok(())
}

#[test]
fn lengths_names_and_frames(rt: HostRuntime) -> Result<(), Fail> {
    let mut image = [0; 2_048];
    assert!(rt; format::format(&mut image, smallest(), &some_files(rt.alloc(), 1, 0)?).is_ok());
    assert_eq!(rt; refusal(&image, 81 * 4_096), (0, 0));
    assert_eq!(rt; refusal(&image, 81 * 4_096 - 1), (5, 81));
    assert_eq!(rt; refusal(&image[0..2_047], 0), (1, 2_047));
    assert_eq!(rt; refusal(&image[0..512], 0), (1, 512));
    assert_eq!(rt; refusal(&image[0..1_536], 0), (4, 1_536));
    image[3] = b'M';
    assert_eq!(rt; refusal(&image, 0), (2, 0));
    let mut long = vec![in rt.alloc(); 0; 131_073 * 512]?;
    assert_eq!(rt; refusal(&long, 0), (1, 131_073 * 512));
    long.truncate(131_072 * 512);
    assert_eq!(rt; refusal(&long, 0), (2, 0));
    Ok(())
}

// With files of one byte the headers are blocks 2, 3 and 4, 5, and there have to be 8 blocks.
fn check_headers(rt: &impl Abort, image: &mut [u8])
    requires { length image.old ≡ 4096 }
{
    assert_eq!(rt; refusal(&image[0..3_584], PLENTY), (4, 3_584));
    4_294_967_295_u32.write(image, 2_048);
    assert_eq!(rt; refusal(image, PLENTY), (0, 0));
    image[512] = 255;
    assert_eq!(rt; refusal(image, PLENTY), (4, 2_048));
    assert_eq!(rt; refusal(&image[0..3_584], PLENTY), (4, 2_048));
    assert_eq!(rt; refusal(&image[0..2_048], PLENTY), (4, 2_048));
    image[512] = 254;
    2_u32.write(image, 1_024);
    assert_eq!(rt; refusal(image, PLENTY), (4, 1_024));
}

#[test]
fn one_header_counts(rt: HostRuntime) -> Result<(), Fail> {
    let mut image = [0; 4_096];
    let mut sizes = smallest();
    sizes.file = 1;
    assert!(rt; format::format(&mut image, sizes, &some_files(rt.alloc(), 1, 1)?).is_ok());
    check_headers(&rt, &mut image);
    Ok(())
}

// A disc is made over whatever was there, is taken, and holds just its files.
fn check_made(
    rt: &impl Abort,
    heap: Global,
    image: &mut [u8],
    sizes: Sizes,
    count: u8,
    long: usize,
) -> Result<(), Fail> {
    let files = some_files(heap, count, long)?;
    assert!(rt; format::format(image, sizes, &files).is_ok());
    let Ok(found) = check::check_disc(image) else {
        return Err(Fail::new("refused"));
    };
    assert!(rt; read::holds_files(image, found, &files));
    Ok(())
}

#[test]
fn made_and_read(rt: HostRuntime) -> Result<(), Fail> {
    let mut small = [7; 2_048];
    check_made(&rt, rt.alloc(), &mut small, smallest(), 1, 0)?;
    let mut large = vec![in rt.alloc(); 7; 65_556 * 512]?;
    check_made(&rt, rt.alloc(), &mut large, largest(), 64, 262_144)
}
