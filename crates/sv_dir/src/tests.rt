use crate::{BadPath, count_names, empty_place, find, is_empty, split_path};
use std::alloc::Global;
use std::test::Fail;
use sv_form::Name;

// Whether the path is split into these names.
fn is_split(alloc: Global, path: &[u8], absolute: bool, names: &[&[u8]]) -> bool {
    if path.len() > 100 {
        return false;
    }
    match split_path(alloc, path) {
        Ok(words) => {
            words.absolute == absolute
                && words.names.as_slice().len() == names.len()
                && words
                    .names
                    .as_slice()
                    .iter()
                    .zip(names)
                    .all(|(name, wanted)| name.as_slice() == *wanted)
                && count_names(path) as usize == names.len()
        }
        Err(_) => false,
    }
}

fn refusal(alloc: Global, path: &[u8]) -> Option<BadPath> {
    if path.len() > 100 {
        return None;
    }
    split_path(alloc, path).err()
}

#[test]
fn paths(rt: HostRuntime) {
    let alloc = rt.alloc();
    assert!(rt; is_split(alloc, b"/", true, &[]));
    assert!(rt; is_split(alloc, b"//..", true, &[b".."]));
    assert!(rt; is_split(alloc, b"a", false, &[b"a"]));
    assert!(rt; is_split(alloc, b"//../.", true, &[b"..", b"."]));
    assert!(rt; is_split(alloc, b"a//b/", false, &[b"a", b"b"]));
    assert!(rt; is_split(alloc, b"/abcdefghijklmn", true, &[b"abcdefghijklmn"]));
    assert_eq!(rt; refusal(alloc, b""), Some(BadPath::Empty));
    assert_eq!(rt;
        refusal(alloc, b"/abcdefghijklmno"),
        Some(BadPath::TooLong(0))
    );
    assert_eq!(rt;
        refusal(alloc, b"//a/abcdefghijklm\0o"),
        Some(BadPath::TooLong(1))
    );
    assert_eq!(rt;
        refusal(alloc, b"a/b/\0/abcdefghijklmno"),
        Some(BadPath::BadByte(2))
    );
    assert_eq!(rt; count_names(b"a/b/\0"), 0);
    assert_eq!(rt; count_names(b""), 0);
}

// Three entries: one named a with inode 3, an empty one, one named a with inode 4.
fn three_entries() -> [u8; 48] {
    let mut page = [0; 48];
    page[0] = 3;
    page[2] = b'a';
    page[32] = 4;
    page[34] = b'a';
    page
}

#[test]
fn pages(rt: HostRuntime) -> Result<(), Fail> {
    let page = three_entries();
    let a = Name::read(b"a").ok_or("a")?;
    let b = Name::read(b"b").ok_or("b")?;
    assert_eq!(rt; find(&page, &a), Some((0, 3)));
    assert_eq!(rt; find(&page[16..], &a), Some((1, 4)));
    assert_eq!(rt; find(&page, &b), None);
    assert_eq!(rt; empty_place(&page), Some(1));
    assert_eq!(rt; empty_place(&page[32..]), None);
    assert!(rt; !is_empty(&page, 1));
    assert!(rt; is_empty(&page, 3));
    assert!(rt; is_empty(&[0; 16], 0));
    Ok(())
}

// A whole page of 64 entries. The first and the second spell none: a name with a byte behind a zero byte, and one without an
// inode. The third is named abc, the last ab, and all between them z.
fn whole_page() -> [u8; 1024] {
    let mut page = [0; 1024];
    for place in 0..64 {
        page[16 * place] = 5;
        page[16 * place + 2] = b'z';
    }
    page[2..5].copy_from_slice(b"q\0r");
    page[16..19].copy_from_slice(b"\0\0x");
    page[34..37].copy_from_slice(b"abc");
    page[1008] = 9;
    page[1010..1012].copy_from_slice(b"ab");
    page
}

// The same without its last entry.
fn page_with_room() -> [u8; 1024] {
    let mut page = whole_page();
    page[1008..].fill(0);
    page
}

// The beginning of an entry's name is not its name, and what spells no entry has none, but is no room either.
#[test]
fn names_in_a_whole_page(rt: HostRuntime) -> Result<(), Fail> {
    let names: [(&[u8], Option<(u32, u16)>); 7] = [
        (b"abc", Some((2, 5))),
        (b"ab", Some((63, 9))),
        (b"a", None),
        (b"abcd", None),
        (b"q", None),
        (b"x", None),
        (b"z", Some((3, 5))),
    ];
    let page = whole_page();
    for (name, wanted) in names {
        let name = Name::read(name).ok_or("a name")?;
        assert_eq!(rt; find(&page, &name), wanted);
    }
    Ok(())
}

#[test]
fn room_in_a_whole_page(rt: HostRuntime) {
    let page = whole_page();
    assert_eq!(rt; empty_place(&page), None);
    assert!(rt; !is_empty(&page, 63));
    assert!(rt; is_empty(&page, 64));
    assert!(rt; is_empty(&page[16..32], 0));
    assert_eq!(rt; empty_place(&page_with_room()), Some(63));
}
