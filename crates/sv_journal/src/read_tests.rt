use crate::tests::WORKED;
use crate::{JournalFault, read, write};
use std::alloc::{AllocError, Global};
use std::test::Fail;
use sv_dev::MemSink;

fn refusal(alloc: Global, text: &[u8]) -> Option<JournalFault> {
    read(alloc, text).err()
}

// The same of a journal of one process with these lines behind its first.
fn refusal_of_lines(alloc: Global, lines: &[u8]) -> Result<Option<JournalFault>, AllocError> {
    let mut text = Vec::from_slice(alloc, b"svj 1 1 100\n")?;
    text.extend_from_slice(lines)?;
    Ok(refusal(alloc, text.as_slice()))
}

// Whether a text is read, and written again.
fn comes_back(alloc: Global, text: &[u8], out: &mut MemSink) -> bool {
    match read(alloc, text) {
        Ok(journal) => write(
            alloc,
            journal.entries.as_slice(),
            journal.processes,
            journal.table,
            out,
        )
        .is_ok(),
        Err(_) => false,
    }
}

#[test]
fn worked_journal_comes_back(rt: HostRuntime) -> Result<(), Fail> {
    let mut out = MemSink::new(Vec::new(rt.alloc()));
    assert!(rt; comes_back(rt.alloc(), WORKED, &mut out));
    assert_eq!(rt; out.written(), WORKED);
    Ok(())
}

// Each op, the least and the greatest numbers, and replies that no file system gives there.
#[test]
fn all_forms_come_back(rt: HostRuntime) -> Result<(), Fail> {
    let lines: &[u8] = b"svj 1 16 400
16 look 65535 2e2e = notfound
1 look 0 ff303132333435363738393061 = found 65535
1 drop 2 = late
1 create 2 61 f 177777 = manylinks
1 create 2 61 d 0 = noinode
1 addlink 3 = raised
1 enter 2 61 3 = exists
1 enter 2 61 3 = entered
1 sublink 3 = lowered
1 unlink 2 61 = removed 3
1 rmdir 2 61 = plain
1 rmdir 2 61 = notempty
1 open 3 r = isdir
1 close 0 = freed
1 dup 0 = dupped
1 read 0 4294967295 = got -
1 write 0 - = faultafter 0
1 write 0 00ff = wrote 4294967295
1 seek 0 -9223372036854775808 255 = bad
1 seek 0 9223372036854775807 2 = at 4294967295
1 trunc 3 = done
1 stat 3 = is f 7777 65535 4294967295
1 promise write 65535 4294967295 = nospace
1 promise enter 2 61 = toobig
1 forgo = done
1 sync = fault
1 look 2 61 = full
1 look 2 61 = gone
0 purge = late
";
    let mut out = MemSink::new(Vec::new(rt.alloc()));
    assert!(rt; comes_back(rt.alloc(), lines, &mut out));
    assert_eq!(rt; out.written(), lines);
    Ok(())
}

#[test]
fn first_lines_that_are_refused(rt: HostRuntime) {
    let rows: [&[u8]; 14] = [
        b"",
        b"\n",
        b"svj 1 1 100",
        b"svj 1 1 100 \n",
        b" svj 1 1 100\n",
        b"svj 2 1 100\n",
        b"svj 1 0 100\n",
        b"svj 1 17 100\n",
        b"svj 1 1 1\n",
        b"svj 1 1 401\n",
        b"svj 1 01 100\n",
        b"svj 1 1\n",
        b"svk 1 1 100\n",
        b"1 forgo = done\n",
    ];
    for text in rows {
        assert_eq!(rt; refusal(rt.alloc(), text), Some(JournalFault::Line(1)));
    }
}

#[test]
fn lines_that_are_refused(rt: HostRuntime) -> Result<(), Fail> {
    let rows: [&[u8]; 32] = [
        b"\n",
        b"1 drop 2 = kept",
        b"1 drop 2 = kept\r\n",
        b"1 drop 2 = kept \n",
        b"1  drop 2 = kept\n",
        b" 1 drop 2 = kept\n",
        b"01 drop 2 = kept\n",
        b"1 drop 02 = kept\n",
        b"1 drop +2 = kept\n",
        b"1 drop 65536 = kept\n",
        b"1 drop 2 3 = kept\n",
        b"1 drop = kept\n",
        b"1 drop 2 kept\n",
        b"1 drop 2 =\n",
        b"1 drop 2 = done\n",
        b"1 frob 2 = kept\n",
        b"2 drop 2 = kept\n",
        b"0 drop 2 = kept\n",
        b"1 purge = done\n",
        b"1 look 2 6F = gone\n",
        b"1 look 2 6 = gone\n",
        b"1 look 2 - = gone\n",
        b"1 look 2 2f = gone\n",
        b"1 look 2 616200 = gone\n",
        b"1 look 2 303132333435363738393031323334 = gone\n",
        b"1 read 0 4 = got \n",
        b"1 write 0 AB = wrote 1\n",
        b"1 seek 0 -0 0 = at 0\n",
        b"1 seek 0 9223372036854775808 0 = bad\n",
        b"1 create 2 61 f 0644 = gone\n",
        b"1 create 2 61 f 200000 = gone\n",
        b"1 open 3 wr = fault\n",
    ];
    for lines in rows {
        assert_eq!(rt;
            refusal_of_lines(rt.alloc(), lines)?,
            Some(JournalFault::Line(2))
        );
    }
    Ok(())
}

// The last line counts too, and is no line without its newline byte.
#[test]
fn lines_are_counted(rt: HostRuntime) -> Result<(), Fail> {
    let cut = &WORKED[..WORKED.len() - 1];
    assert_eq!(rt; refusal(rt.alloc(), cut), Some(JournalFault::Line(29)));
    let third = b"1 drop 2 = kept\n1 drop 2 = lost\n".as_slice();
    assert_eq!(rt;
        refusal_of_lines(rt.alloc(), third)?,
        Some(JournalFault::Line(3))
    );
    Ok(())
}
