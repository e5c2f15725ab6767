//! Changes as bytes.
ghost use Rattle.std.specs.Prelude.{◌≡◌, ◌<◌, ◌^◌, ◌∷◌, ◌++◌, length, IfOk, OnOk, OnErr, IsTrue};
ghost use Rattle.std.specs.Int.{w64, to_be_bytes};
ghost use Rattle.std.specs.List.{flat_map};
ghost use Rattle.mvn_metadata.specs.Written.{text as text_of};
ghost use Rattle.repo_rows.specs.Sizes.{IsSized, AreSized};
ghost use Rattle.row_tables.specs.Items.{IsHosted, are_of, after_sha1, further_bytes, text_bytes, document_bytes, print_bytes, result_bytes, place_bytes, file_bytes, item_bytes, change_bytes};
ghost use Rattle.row_tables.specs.declared.version.Version.TheVariants.{Second};

use mvn_digest::{Further, Known};
use mvn_doc::write;
use mvn_metadata::Doc;
use repo_model::{Item, Recorded, SessionResult};
use row_tables::Change;
use std::alloc::{AllocError, Global};
use texts::Text;

fn put_text(out: &mut Vec<u8>, text: &Text) -> Result<(), AllocError>
    requires { length text.now < 2 ^ 16 }
    ensures { OnOk result (out.new.items ≡ out.old.items ++ text_bytes text.now) }
{
    let bytes = text.as_str().as_bytes();
    out.extend_from_slice(&(bytes.len() as u16).to_be_bytes())?;
    out.extend_from_slice(bytes)
}

fn put_place(out: &mut Vec<u8>, repo: &Text, path: &Text) -> Result<(), AllocError>
    requires repo { length repo.now < 2 ^ 16 }
    requires path { length path.now < 2 ^ 16 }
    ensures { OnOk result (out.new.items ≡ out.old.items ++ place_bytes repo.now path.now) }
{
    put_text(out, repo)?;
    put_text(out, path)
}

fn put_number(out: &mut Vec<u8>, number: u64) -> Result<(), AllocError>
    ensures { OnOk result (out.new.items ≡ out.old.items ++ to_be_bytes w64 number) }
{
    out.extend_from_slice(&number.to_be_bytes())
}

fn put_further(out: &mut Vec<u8>, further: &Further) -> Result<(), AllocError>
    ensures { OnOk result (out.new.items ≡ out.old.items ++ further_bytes further.now) }
{
    out.extend_from_slice(&further.sha256)?;
    out.extend_from_slice(&further.sha512)
}

// What stands after a file's SHA-1.
fn put_after_sha1(out: &mut Vec<u8>, known: &Known) -> Result<(), AllocError>
    ensures { OnOk result (out.new.items ≡ out.old.items ++ after_sha1 known.now.md5 known.now.further) }
{
    out.extend_from_slice(&known.md5)?;
    match &known.further {
        None => Ok(()),
        Some(further) => put_further(out, further),
    }
}

fn put_print(out: &mut Vec<u8>, print: &Recorded) -> Result<(), AllocError>
    ensures { OnOk result (out.new.items ≡ out.old.items ++ print_bytes print.now) }
{
    put_number(out, print.length)?;
    out.extend_from_slice(&print.digests.sha1)?;
    put_after_sha1(out, &print.digests)
}

// What a file's item has after its place.
fn put_stored(
    out: &mut Vec<u8>,
    blob: u64,
    print: &Recorded,
    accepted: u64,
) -> Result<(), AllocError>
    ensures { OnOk result (out.new.items ≡ out.old.items ++ (to_be_bytes w64 blob ++ (print_bytes print.now ++ to_be_bytes w64 accepted))) }
{
    put_number(out, blob)?;
    put_print(out, print)?;
    put_number(out, accepted)
}

fn put_document(alloc: Global, out: &mut Vec<u8>, document: &Doc) -> Result<(), AllocError>
    requires { length (text_of document.now) < 2 ^ 32 }
    ensures { OnOk result (out.new.items ≡ out.old.items ++ document_bytes document.now) }
{
    let written = write(alloc, document)?;
    out.extend_from_slice(&(written.len() as u32).to_be_bytes())?;
    out.extend_from_slice(&written)
}

// What a document's item has after its place.
fn put_kept(
    alloc: Global,
    out: &mut Vec<u8>,
    checked: u64,
    document: &Doc,
) -> Result<(), AllocError>
    requires { length (text_of document.now) < 2 ^ 32 }
    ensures { OnOk result (out.new.items ≡ out.old.items ++ (to_be_bytes w64 checked ++ document_bytes document.now)) }
{
    put_number(out, checked)?;
    put_document(alloc, out, document)
}

fn put_result(out: &mut Vec<u8>, how: SessionResult) -> Result<(), AllocError>
    ensures { OnOk result (out.new.items ≡ out.old.items ++ result_bytes how) }
{
    match how {
        SessionResult::Aborted => {
            out.push(0)?;
            put_number(out, 0)
        }
        SessionResult::Done(count) => {
            out.push(1)?;
            put_number(out, count)
        }
    }
}

// The place of an item that has one, after a tag.
fn put_tagged(out: &mut Vec<u8>, tag: u8, repo: &Text, path: &Text) -> Result<(), AllocError>
    requires repo { length repo.now < 2 ^ 16 }
    requires path { length path.now < 2 ^ 16 }
    ensures { OnOk result (out.new.items ≡ out.old.items ++ tag ∷ place_bytes repo.now path.now) }
{
    out.push(tag)?;
    put_place(out, repo, path)
}

// An item of a hosted repository.
fn put_hosted(out: &mut Vec<u8>, item: &Item) -> Result<(), AllocError>
    requires hosted { IsHosted item.now }
    requires sized { IsSized item.now }
    ensures { OnOk result (out.new.items ≡ out.old.items ++ item_bytes item.now) }
{
    match item {
        Item::HostedPut {
            repo,
            path,
            blob,
            print,
            accepted,
        } => {
            put_tagged(out, 1, repo, path)?;
            put_stored(out, *blob, print, *accepted)
        }
        Item::Faded { repo, path, moment } => {
            put_tagged(out, 2, repo, path)?;
            put_number(out, *moment)
        }
        Item::Relisted {
            repo,
            path,
            accepted,
        } => {
            put_tagged(out, 3, repo, path)?;
            put_number(out, *accepted)
        }
        Item::Removed { repo, path } => put_tagged(out, 4, repo, path),
        _ => unreachable!(),
    }
}

fn put_item(alloc: Global, out: &mut Vec<u8>, item: &Item) -> Result<(), AllocError>
    requires { IsSized item.now }
    ensures { OnOk result (out.new.items ≡ out.old.items ++ item_bytes item.now) }
{
    match item {
        Item::CachedFile {
            repo,
            path,
            blob,
            print,
            accepted,
        } => {
            put_tagged(out, 5, repo, path)?;
            put_stored(out, *blob, print, *accepted)
        }
        Item::CachedDoc {
            repo,
            path,
            checked,
            document,
        } => {
            put_tagged(out, 6, repo, path)?;
            put_kept(alloc, out, *checked, document)
        }
        Item::SessionOpened(number) => {
            out.push(7)?;
            put_number(out, *number)
        }
        Item::SessionEnded { session, result } => {
            out.push(8)?;
            put_number(out, *session)?;
            put_result(out, *result)
        }
        Item::Digested {
            repo,
            path,
            further,
        } => {
            put_tagged(out, 9, repo, path)?;
            put_further(out, further)
        }
        _ => put_hosted(out, item),
    }
}

/// Writes items, one after the other.
pub fn put_items(alloc: Global, out: &mut Vec<u8>, items: &[Item]) -> Result<(), AllocError>
    requires { AreSized items.now }
    ensures { OnOk result (out.new.items ≡ out.old.items ++ flat_map item_bytes items.now) }
{
    for item in items {
        put_item(alloc, out, item)?;
    }
    Ok(())
}

// The bytes of a change.
fn written(alloc: Global, change: &Change) -> Result<Vec<u8>, AllocError>
    ensures { IfOk result (λ bytes. bytes.items ≡ change_bytes change.now) }
{
    let items = change.items();
    let mut out = Vec::new(alloc);
    out.push(2)?;
    out.extend_from_slice(&(items.len() as u32).to_be_bytes())?;
    put_items(alloc, &mut out, items)?;
    Ok(out)
}

/// Writes a change, each file of which has its SHA-256 and SHA-512, after what is there: in the second version. When
/// memory runs out nothing is written.
pub fn put(alloc: Global, change: &Change, out: &mut Vec<u8>) -> Result<(), AllocError>
    requires { IsTrue (are_of Second change.now) }
    ensures ok { OnOk result (out.new.items ≡ out.old.items ++ change_bytes change.now) }
    ensures err { OnErr result (out.new.items ≡ out.old.items) }
{
    let bytes = written(alloc, change)?;
    out.extend_from_slice(&bytes)
}
