// The digests of the standard input.
use crate::digests::SIDES;
use mvn_digest::{Digests, Hashes, side_text};
use std::io::{self, Read, Write};

/// The digests of all that is read, up to its end.
fn digests_of(rt: &(impl AllocGlobal + Input)) -> io::Result<Digests> {
    let mut input = rt.reader();
    let mut hashes = Hashes::new();
    let mut piece: Vec<u8> = vec![in rt.alloc(); 0; 65_536]?;
    for _ in 0..u64::MAX {
        let count = input.read(piece.as_mut_slice())?;
        if count == 0 {
            break;
        }
        hashes.update(&piece[..count]);
    }
    Ok(hashes.finish())
}

/// Writes the digests, a line each.
fn print_all(rt: &impl Print, digests: &Digests) -> io::Result<()> {
    let mut out = io::writer(rt);
    for side in SIDES {
        let text = side_text(digests, side);
        out.write_all(text.as_bytes())?;
        out.write_all(b"\n")?;
    }
    Ok(())
}

/// Writes the digests of all that is read, a line each.
pub(crate) fn run_digests(rt: &(impl AllocGlobal + Input + Print)) -> io::Result<()> {
    let digests = digests_of(rt)?;
    print_all(rt, &digests)
}
