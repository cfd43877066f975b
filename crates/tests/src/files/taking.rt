// Which storage file is taken.
ghost use Rattle.std.specs.Prelude.{◌≡◌, IfOk};

use mdbox_base::{FileNo, NoMemory, Seq};
use std::alloc::Global;
use std::test::Fail;
use storage_files::{FileState, MailFiles, Take};

/// File 1, which ends at 105.
const FIRST: FileState = FileState {
    file: FileNo(1),
    end: 105,
    sealed: false,
    barred: false,
};

/// Two files, the first of which ends at 105, and room to take one.
fn two_files(alloc: Global, end: u64, sealed: bool, barred: bool) -> Result<MailFiles, NoMemory>
    ensures { IfOk result (λ files. files.spare ≡ 1) }
{
    let second = FileState {
        file: FileNo(2),
        end,
        sealed,
        barred,
    };
    let found = Seq::of(vec![in alloc; FIRST, second]?);
    let mut files = MailFiles::of(alloc, found, 2)?;
    files.reserve(1)?;
    Ok(files)
}

#[test]
fn a_file_has_one_taker(rt: HostRuntime) -> Result<(), Fail> {
    let found = Seq::of(vec![in rt.alloc(); FIRST]?);
    let mut files = MailFiles::of(rt.alloc(), found, 1)?;
    files.reserve(1)?;
    assert_eq!(rt; files.take_for(89), Take::Known(FileNo(1)));
    files.reserve(1)?;
    assert_eq!(rt; files.take_for(89), Take::New(FileNo(2)));
    assert_eq!(rt; files.spare(), 0);
    assert_eq!(rt; files.end_of(FileNo(1)), Some(105));
    assert_eq!(rt; files.end_of(FileNo(2)), None);
    assert_eq!(rt; files.next_file(None), Some(FileNo(1)));
    assert_eq!(rt; files.next_file(Some(FileNo(1))), None);
    Ok(())
}

#[test]
fn the_greatest_file_with_room(rt: HostRuntime) -> Result<(), Fail> {
    let cases = [
        (50, false, false, 89, Take::Known(FileNo(2))),
        (50, true, false, 89, Take::Known(FileNo(1))),
        (50, false, true, 89, Take::Known(FileNo(1))),
        (10_485_671, false, false, 89, Take::Known(FileNo(2))),
        (10_485_672, false, false, 89, Take::Known(FileNo(1))),
        (50, true, false, 10_485_655, Take::Known(FileNo(1))),
        (50, true, false, 10_485_656, Take::New(FileNo(3))),
        (50, false, false, 67_108_864, Take::New(FileNo(3))),
    ];
    for (end, sealed, barred, size, expected) in cases {
        let mut files = two_files(rt.alloc(), end, sealed, barred)?;
        assert_eq!(rt;
            files.take_for(size),
            expected,
            "{end} {sealed} {barred} {size}"
        );
    }
    Ok(())
}

#[test]
fn a_number_is_drawn_once(rt: HostRuntime) -> Result<(), Fail> {
    let mut files = two_files(rt.alloc(), 50, true, true)?;
    files.reserve(3)?;
    assert_eq!(rt; files.take_for(10_485_760), Take::New(FileNo(3)));
    if files.is_taken(FileNo(3)) {
        files.release(FileNo(3));
    }
    assert_eq!(rt; files.is_taken(FileNo(3)), false);
    assert_eq!(rt; files.take_for(10_485_760), Take::New(FileNo(4)));
    let mut last = MailFiles::of(rt.alloc(), Seq::empty(rt.alloc()), 4_294_967_294)?;
    last.reserve(1)?;
    assert_eq!(rt; last.take_for(1), Take::Full);
    Ok(())
}
