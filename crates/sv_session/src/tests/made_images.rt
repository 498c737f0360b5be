// The image of 64 blocks and 32 inodes that has the root alone, and that with a directory and a file in it.
use crate::test_images::{A_FILE_MADE, EMPTY, Image, MADE, MADE_CUT, Patch};
use crate::test_runs::{Row, hold_over};
use std::test::Fail as Failure;

// An image, changes of it, and what a check of it answers: the status, and what is written to `out` and to `note`.
type Checked = (Image, &'static [Patch], (u8, &'static [u8], &'static [u8]));

const CHECKED: &[Checked] = &[
    (
        MADE,
        &[],
        (0, b"ok blocks 64 free 59 inodes 32 used 1\n", b""),
    ),
    (
        MADE,
        A_FILE_MADE,
        (0, b"ok blocks 64 free 57 inodes 32 used 3\n", b""),
    ),
    (EMPTY, &[], (2, b"", b"svfs: image refused: 1 Magic 0\n")),
    (MADE_CUT, &[], (2, b"", b"svfs: image refused: 3 Sizes 0\n")),
    (
        MADE,
        &[(2_176, b"\xa4\x81\x01\0\0\0\0\0\0\x04\0\0\x04")],
        (2, b"", b"svfs: image refused: 7 Twice 4\n"),
    ),
    (
        MADE,
        &[(14_340, b"\x0e")],
        (2, b"", b"svfs: image refused: 10 FreeChain 14\n"),
    ),
    (
        MADE,
        &[(2_114, b"\x03")],
        (2, b"", b"svfs: image refused: 16 Links 2\n"),
    ),
];

#[test]
fn sound_and_damaged_ones(rt: HostRuntime) -> Result<(), Failure> {
    for (image, changes, told) in CHECKED {
        hold_over(&rt, *image, changes, &[(&["check", "E"], *told)])?;
    }
    Ok(())
}

const MISSING: &[u8] = b"svfs: no such file\n";

const FILES: &[Row] = &[
    (&["cat", "E", "4"], (0, b"hello\n", b"")),
    (&["cat", "E", "3"], (9, b"", MISSING)),
    (&["cat", "E", "5"], (9, b"", MISSING)),
    (&["cat", "E", "0"], (9, b"", MISSING)),
    (&["cat", "E", "33"], (9, b"", MISSING)),
];

#[test]
fn files_by_their_numbers(rt: HostRuntime) -> Result<(), Failure> {
    hold_over(&rt, MADE, A_FILE_MADE, FILES)
}
