//! Which objects the words have.
use crate::folder::status_over_folder;
use crate::memory::{status_in_memory, status_of_demo};
use crate::server::status_of_server;
use outside::{Duplex, NoMemory};
use outside_memory::{FaultScript, MemLink, MemSource};
use outside_system::{ReaderSource, WriterSink, file_source};
use repo_run::{Action, Wanted};
use std::io::{Stdin, Stdout};
use std::sync::Wait;
use std::thread::Threads;

/// Standard input and output as one connection.
type Standard = Duplex<ReaderSource<Stdin>, WriterSink<Stdout>>;

fn standard(rt: &HostRuntime) -> Standard {
    Duplex {
        source: ReaderSource::new(rt.stdin()),
        sink: WriterSink::new(rt.stdout()),
    }
}

/// Makes the objects that the words have, and runs the program with them.
pub fn status_for<R: Threads + Wait + Sync>(
    threads: &R,
    rt: &HostRuntime,
    words: &[String],
    wanted: &Wanted,
) -> Result<u8, NoMemory> {
    let alloc = rt.alloc();
    match wanted.command {
        Action::Replay => {
            let mut settings = file_source(rt, wanted.settings.as_str());
            let links = vec![in alloc; standard(rt)]?;
            status_in_memory(threads, rt, words, wanted, &mut settings, links)
        }
        Action::Check | Action::Clean => status_over_folder(threads, rt, words, wanted),
        Action::Serve => status_of_server(threads, rt, words, wanted),
        Action::Demo { .. } => status_of_demo(threads, rt, words),
        Action::Nothing => {
            let mut settings = MemSource::new(Vec::new(alloc), 1, FaultScript::none(alloc));
            let links: Vec<MemLink> = Vec::new(alloc);
            status_in_memory(threads, rt, words, wanted, &mut settings, links)
        }
    }
}
