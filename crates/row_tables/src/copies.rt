//! Copies of items and of what they hold.
ghost use Rattle.std.specs.Prelude.{◌≡◌, IsTrue, IfOk};
ghost use Rattle.std.specs.List.{list_all};
ghost use Rattle.row_tables.specs.Items.{IsHosted, is_item};

use repo_model::Item;
use std::alloc::{AllocError, Global};

// Another copy of an item of a hosted repository.
fn copied_hosted(alloc: Global, item: &Item) -> Result<Item, AllocError>
    requires { IsHosted item.now }
    ensures { IfOk result (λ i. i ≡ item.now) }
{
    Ok(match item {
        Item::HostedPut {
            repo,
            path,
            blob,
            print,
            accepted,
        } => Item::HostedPut {
            repo: repo.copied(alloc)?,
            path: path.copied(alloc)?,
            blob: *blob,
            print: *print,
            accepted: *accepted,
        },
        Item::Faded { repo, path, moment } => Item::Faded {
            repo: repo.copied(alloc)?,
            path: path.copied(alloc)?,
            moment: *moment,
        },
        Item::Relisted {
            repo,
            path,
            accepted,
        } => Item::Relisted {
            repo: repo.copied(alloc)?,
            path: path.copied(alloc)?,
            accepted: *accepted,
        },
        Item::Removed { repo, path } => Item::Removed {
            repo: repo.copied(alloc)?,
            path: path.copied(alloc)?,
        },
        _ => unreachable!(),
    })
}

/// Another copy of an item.
pub fn copied_item(alloc: Global, item: &Item) -> Result<Item, AllocError>
    requires { IsTrue (is_item item.now) }
    ensures { IfOk result (λ i. i ≡ item.now) }
{
    Ok(match item {
        Item::CachedFile {
            repo,
            path,
            blob,
            print,
            accepted,
        } => Item::CachedFile {
            repo: repo.copied(alloc)?,
            path: path.copied(alloc)?,
            blob: *blob,
            print: *print,
            accepted: *accepted,
        },
        Item::CachedDoc {
            repo,
            path,
            checked,
            document,
        } => Item::CachedDoc {
            repo: repo.copied(alloc)?,
            path: path.copied(alloc)?,
            checked: *checked,
            document: document.copied(alloc)?,
        },
        Item::SessionOpened(number) => Item::SessionOpened(*number),
        Item::SessionEnded { session, result } => Item::SessionEnded {
            session: *session,
            result: *result,
        },
        Item::Digested {
            repo,
            path,
            further,
        } => Item::Digested {
            repo: repo.copied(alloc)?,
            path: path.copied(alloc)?,
            further: *further,
        },
        _ => copied_hosted(alloc, item)?,
    })
}

/// Other copies of items.
pub fn copied_items(alloc: Global, items: &[Item]) -> Result<Vec<Item>, AllocError>
    requires { IsTrue (list_all is_item items.now) }
    ensures { IfOk result (λ v. v.items ≡ items.now) }
{
    let mut copies = Vec::new(alloc);
    for item in items {
        copies.push(copied_item(alloc, item)?)?;
    }
    Ok(copies)
}
