// What a server owns. It is not run, since it would not end. Each of its objects is lent to a function that knows its trait alone.
use crate::stock::{LATER, make_folder, words_over};
use outside::{Blobs, Clock, Port};
use outside_pace::Pace;
use outside_remote::Remote;
use repo_run::wanted;
use row_tables::Records;
use run_desks::{Cleaner, Desk};
use run_system::{Server, server_of};
use std::alloc::{AllocError, Global};
use std::fs;
use std::sync::Wait;
use std::test::Fail;

// Whether a store lists the contents of the folder.
fn lists_all<B: Blobs>(blobs: &mut B) -> bool {
    match blobs.list() {
        Ok(numbers) => numbers.as_slice() == [1, 2, 7].as_slice(),
        Err(_) => false,
    }
}

fn desk_lists_all<P: Port + Drop, B: Blobs + Drop, R: Remote + Drop>(desk: Desk<P, B, R>) -> bool {
    let Desk {
        port: _,
        mut blobs,
        remote: _,
    } = desk;
    lists_all(&mut blobs)
}

fn all_list_all<P: Port + Drop, B: Blobs + Drop, R: Remote + Drop>(
    desks: Vec<Desk<P, B, R>>,
) -> bool {
    for desk in desks {
        if !desk_lists_all(desk) {
            return false;
        }
    }
    true
}

fn cleaner_lists_all<B: Blobs + Drop, Q: Pace + Drop>(cleaner: Cleaner<B, Q>) -> bool {
    let Cleaner { mut blobs, pace: _ } = cleaner;
    lists_all(&mut blobs)
}

// Whether both builds are recorded.
fn has_both<K: Records>(alloc: Global, records: &mut K) -> bool {
    match records.load(alloc) {
        Ok(tables) => tables.hosted().len() == 2,
        Err(_) => false,
    }
}

fn is_later<C: Clock>(clock: &mut C) -> bool {
    clock.now() > LATER
}

// Whether these are four desks, a cleaner and records over the folder, and a clock that goes on.
fn are_over<
    P: Port + Drop,
    B: Blobs + Drop,
    R: Remote + Drop,
    Q: Pace + Drop,
    K: Records,
    C: Clock,
>(
    alloc: Global,
    desks: Vec<Desk<P, B, R>>,
    cleaner: Cleaner<B, Q>,
    records: &mut K,
    clock: &mut C,
) -> bool {
    let count = desks.len();
    let served = all_list_all(desks);
    let cleaned = cleaner_lists_all(cleaner);
    let recorded = has_both(alloc, records);
    let later = is_later(clock);
    count == 4 && served && cleaned && recorded && later
}

fn server_over<'a, R: Wait>(
    threads: &'a R,
    rt: &HostRuntime,
    folder: &str,
) -> Result<Server<&'a R>, AllocError> {
    let mut words = words_over(rt.alloc(), "serve", folder)?;
    words.push(String::from_str(rt.alloc(), "47631")?)?;
    let wanted = wanted(rt.alloc(), words.as_slice())?;
    server_of(threads, rt, &wanted)
}

fn is_over<R: Wait>(threads: &R, rt: &HostRuntime, folder: &str) -> bool {
    match server_over(threads, rt, folder) {
        Ok(
            Server {
                desks,
                cleaner,
                mut records,
                mut clock,
            },
        ) => are_over(rt.alloc(), desks, cleaner, &mut records, &mut clock),
        Err(_) => false,
    }
}

// Its clock is the system's, and its desks, its cleaner and its records are over the folder of its words.
#[test]
fn a_server_is_over_its_folder(rt: HostRuntime) -> Result<(), Fail> {
    let folder = "work_tests_serve";
    assert!(rt; make_folder(&rt, folder));
    assert!(rt; is_over(&rt, &rt, folder));
    fs::remove_dir_all(&rt, folder)?;
    Ok(())
}
