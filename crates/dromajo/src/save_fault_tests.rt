//! Calls of a save that fail, of each object and of each number: the status, and what the three files, the console and
//! the input hold then, reckoned by hand from the order of the calls.

use crate::boot_roms::AFTER_PROGRAM;
use crate::save_tests::{
    ALPHABET, FOUR_DONE, LETTERS, LETTERS_SAVED, META, META_OF_MORE_RAM, MORE_RAM, OLD_IMAGE,
    OLD_META, OLD_ROM, ONE_STEP, SAVE, SWITCHES, UNTOUCHED,
};
use crate::test_files::Content::{Image, Program, Text};
use crate::test_files::File;
use crate::test_support::{Call, Fault, NOTHING, expect_fault};
use std::test::Fail;

const FILES_UNREAD: &str = "read fault files\n";

const FILES_UNWRITTEN: &str = "write fault files\n";

const INPUT_UNREAD: &str = "read fault input\n";

const OUT_UNWRITTEN: &str = "write fault out\n";

// Ten turns without input, over files that stood there before.
const TEN_TURNS: Call<'static> = Call {
    files: &[
        ("c", ONE_STEP),
        ("p.elf", Program(&SWITCHES)),
        OLD_META,
        OLD_IMAGE,
        OLD_ROM,
    ],
    ..SAVE
};

const TEN_DONE: &str = "done turns=10 taken=0\n";

// No byte of the meta text was written yet: nothing of the image, a part of it, all of it, and all of the boot ROM.
const NO_META: File = ("P.json", Text(""));

const WHOLE_IMAGE: File = ("P.mainram", Image(&SWITCHES, 65_536));

const WHOLE_ROM: File = ("P.bootram", Image(&AFTER_PROGRAM, 0));

const META_EMPTIED: &[File] = &[NO_META, OLD_IMAGE, OLD_ROM];

const IMAGE_EMPTIED: &[File] = &[NO_META, ("P.mainram", Text("")), OLD_ROM];

const IMAGE_WRITTEN: &[File] = &[NO_META, WHOLE_IMAGE, OLD_ROM];

const ROM_EMPTIED: &[File] = &[NO_META, WHOLE_IMAGE, ("P.bootram", Text(""))];

const ROM_WRITTEN: &[File] = &[NO_META, WHOLE_IMAGE, WHOLE_ROM];

const ALL_WRITTEN: &[File] = &[("P.json", META), WHOLE_IMAGE, WHOLE_ROM];

static FAULTS: [Fault; 17] = [
    // size and bytes of the configuration, size and bytes of the program
    ([1, 0, 0, 0], 7, FILES_UNREAD, "", UNTOUCHED, ""),
    ([2, 0, 0, 0], 7, FILES_UNREAD, "", UNTOUCHED, ""),
    ([3, 0, 0, 0], 7, FILES_UNREAD, "", UNTOUCHED, ""),
    ([4, 0, 0, 0], 7, FILES_UNREAD, "", UNTOUCHED, ""),
    // the file of the meta text is started, then the image is written, the boot ROM, and the meta text at last
    ([5, 0, 0, 0], 8, FILES_UNWRITTEN, "", UNTOUCHED, ""),
    ([6, 0, 0, 0], 8, FILES_UNWRITTEN, "", META_EMPTIED, ""),
    ([7, 0, 0, 0], 8, FILES_UNWRITTEN, "", IMAGE_EMPTIED, ""),
    ([8, 0, 0, 0], 8, FILES_UNWRITTEN, "", IMAGE_WRITTEN, ""),
    ([9, 0, 0, 0], 8, FILES_UNWRITTEN, "", ROM_EMPTIED, ""),
    ([10, 0, 0, 0], 8, FILES_UNWRITTEN, "", ROM_WRITTEN, ""),
    ([11, 0, 0, 0], 0, TEN_DONE, "", ALL_WRITTEN, ""),
    // the report, by itself and after another fault
    ([0, 0, 0, 1], 8, "", "", ALL_WRITTEN, ""),
    ([4, 0, 0, 1], 7, "", "", UNTOUCHED, ""),
    ([10, 0, 0, 1], 8, "", "", ROM_WRITTEN, ""),
    // nothing is written to the console
    ([0, 0, 1, 0], 0, TEN_DONE, "", ALL_WRITTEN, ""),
    // the one read of the input finds its end
    ([0, 1, 0, 0], 7, INPUT_UNREAD, "", UNTOUCHED, ""),
    ([6, 1, 0, 0], 7, INPUT_UNREAD, "", UNTOUCHED, ""),
];

#[test]
fn a_failing_call_leaves_an_empty_meta_text_or_a_checkpoint(rt: HostRuntime) -> Result<(), Fail> {
    for &fault in &FAULTS {
        expect_fault(&rt, rt.alloc(), TEN_TURNS, fault)?;
    }
    Ok(())
}

// An image of two pieces.
const TWO_PIECES: Call<'static> = Call {
    line: "save --config c --turns 0 --name P",
    files: &[
        ("c", MORE_RAM),
        ("p.elf", Program(&SWITCHES)),
        OLD_META,
        OLD_IMAGE,
        OLD_ROM,
    ],
    ..NOTHING
};

const BOTH_PIECES: &[File] = &[
    ("P.json", META_OF_MORE_RAM),
    ("P.mainram", Image(&SWITCHES, 69_632)),
];

static PIECE_FAULTS: [Fault; 4] = [
    // of two pieces the second fails, or what comes after both
    ([7, 0, 0, 0], 8, FILES_UNWRITTEN, "", IMAGE_EMPTIED, ""),
    ([8, 0, 0, 0], 8, FILES_UNWRITTEN, "", IMAGE_WRITTEN, ""),
    (
        [11, 0, 0, 0],
        8,
        FILES_UNWRITTEN,
        "",
        &[NO_META, ("P.mainram", Image(&SWITCHES, 69_632))],
        "",
    ),
    (
        [12, 0, 0, 0],
        0,
        "done turns=0 taken=0\n",
        "",
        BOTH_PIECES,
        "",
    ),
];

#[test]
fn an_image_is_written_in_pieces(rt: HostRuntime) -> Result<(), Fail> {
    for &fault in &PIECE_FAULTS {
        expect_fault(&rt, rt.alloc(), TWO_PIECES, fault)?;
    }
    Ok(())
}

const LETTERS_UNNAMED: &[File] = &[NO_META, ("P.mainram", Image(&ALPHABET, 65_536))];

static TURN_FAULTS: [Fault; 14] = [
    // reads of the input, before the save and after it
    ([0, 1, 0, 0], 7, INPUT_UNREAD, "", UNTOUCHED, "ab"),
    ([0, 2, 0, 0], 7, INPUT_UNREAD, "A", UNTOUCHED, "b"),
    ([0, 3, 0, 0], 7, INPUT_UNREAD, "AB", LETTERS_SAVED, ""),
    // letters, before the save and after it
    ([0, 0, 1, 0], 8, OUT_UNWRITTEN, "", UNTOUCHED, "b"),
    ([0, 0, 2, 0], 8, OUT_UNWRITTEN, "A", UNTOUCHED, ""),
    ([0, 0, 3, 0], 8, OUT_UNWRITTEN, "AB", LETTERS_SAVED, ""),
    ([0, 0, 4, 0], 8, OUT_UNWRITTEN, "ABC", LETTERS_SAVED, ""),
    ([0, 0, 5, 0], 0, FOUR_DONE, "ABCD", LETTERS_SAVED, ""),
    ([0, 0, 0, 1], 8, "", "ABCD", LETTERS_SAVED, ""),
    ([0, 0, 3, 1], 8, "", "AB", LETTERS_SAVED, ""),
    // of two failing calls the first counts: the turns before the save, the save, and the turns after it
    ([5, 0, 2, 0], 8, OUT_UNWRITTEN, "A", UNTOUCHED, ""),
    ([5, 0, 3, 0], 8, FILES_UNWRITTEN, "AB", UNTOUCHED, ""),
    ([10, 0, 3, 0], 8, FILES_UNWRITTEN, "AB", LETTERS_UNNAMED, ""),
    ([11, 3, 3, 0], 7, INPUT_UNREAD, "AB", LETTERS_SAVED, ""),
];

#[test]
fn turns_may_fail_before_a_save_and_after_it(rt: HostRuntime) -> Result<(), Fail> {
    for &fault in &TURN_FAULTS {
        expect_fault(&rt, rt.alloc(), LETTERS, fault)?;
    }
    Ok(())
}
