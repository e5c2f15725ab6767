// Checks and cleanings of a real folder.
use crate::stock::{LATER, ends_with, has, lacks, leaves_missing, make_folder, put};
use data_folder::open_disk;
use record_journal::Journal;
use row_tables::Records;
use std::alloc::Global;
use std::fs;
use std::sync::Wait;
use std::test::Fail;
use std::thread::Threads;

// Whether the last recorded moment is a late one.
fn is_late<K: Records>(alloc: Global, records: &mut K) -> bool {
    match records.load(alloc) {
        Ok(tables) => tables.greatest_moment() > LATER,
        Err(_) => false,
    }
}

fn is_recorded_late(rt: &HostRuntime, folder: &str) -> bool {
    match open_disk(rt, folder) {
        Ok(disk) => is_late(rt.alloc(), &mut Journal::new(disk)),
        Err(_) => false,
    }
}

fn is_cleaned(rt: &HostRuntime, folder: &str) -> bool {
    has(rt, folder, "blobs/1") && has(rt, folder, "blobs/2") && lacks(rt, folder, "blobs/7")
}

// By a clock that stood at 0 the last recorded moment would go on, at which the older build is still kept. What nothing names
// is removed, and nothing else.
#[test]
fn a_cleaning_goes_by_the_clock_of_the_system(rt: HostRuntime) -> Result<(), Fail> {
    let folder = "work_tests_clean";
    assert!(rt; make_folder(&rt, folder));
    let ended = ends_with(&rt, &rt, "clean", folder, 0);
    let late = is_recorded_late(&rt, folder);
    let cleaned = is_cleaned(&rt, folder);
    fs::remove_dir_all(&rt, folder)?;
    assert!(rt; ended && late && cleaned);
    Ok(())
}

// Whether a check ends so once this file is written.
fn check_ends<R: Threads + Wait + Sync>(
    threads: &R,
    rt: &HostRuntime,
    folder: &str,
    name: &str,
    bytes: &[u8],
    status: u8,
) -> bool {
    put(rt, folder, name, bytes) && ends_with(threads, rt, "check", folder, status)
}

// A check names what is damaged in the folder of its words.
#[test]
fn a_check_looks_at_its_folder(rt: HostRuntime) -> Result<(), Fail> {
    let folder = "work_tests_check";
    assert!(rt; make_folder(&rt, folder));
    assert!(rt; ends_with(&rt, &rt, "check", folder, 0));
    assert!(rt; check_ends(&rt, &rt, folder, "blobs/2", b"abd", 9));
    assert!(rt; put(&rt, folder, "blobs/2", b"abc"));
    assert!(rt; check_ends(&rt, &rt, folder, "s.toml", b"x = 1\n", 3));
    fs::remove_dir_all(&rt, folder)?;
    Ok(())
}

// Whether each command that opens a folder is refused over this one, and its contents stay.
fn all_refuse<R: Threads + Wait + Sync>(threads: &R, rt: &HostRuntime, folder: &str) -> bool {
    ends_with(threads, rt, "check", folder, 4)
        && ends_with(threads, rt, "clean", folder, 4)
        && has(rt, folder, "blobs/7")
}

#[test]
fn contents_without_records_are_refused(rt: HostRuntime) -> Result<(), Fail> {
    let folder = "work_tests_alone";
    assert!(rt; make_folder(&rt, folder));
    assert!(rt; put(&rt, folder, "rows", b""));
    assert!(rt; all_refuse(&rt, &rt, folder));
    fs::remove_file(&rt, "work_tests_alone/rows")?;
    assert!(rt; all_refuse(&rt, &rt, folder));
    fs::remove_dir_all(&rt, folder)?;
    Ok(())
}

// A mistyped folder is told, and neither a check nor a cleaning makes it.
#[test]
fn a_missing_folder_stays_missing(rt: HostRuntime) -> Result<(), Fail> {
    let folder = "work_tests_missing";
    assert!(rt; make_folder(&rt, folder));
    assert!(rt; leaves_missing(&rt, &rt, "check", folder));
    assert!(rt; leaves_missing(&rt, &rt, "clean", folder));
    fs::remove_dir_all(&rt, folder)?;
    Ok(())
}
