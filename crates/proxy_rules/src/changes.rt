//! The changes that are recorded of what a proxy keeps, made of copies.
ghost use Rattle.std.specs.Prelude.{◌≡◌, ◌∷◌, [], IfOk};
ghost use Rattle.repo_model.specs.Prints.{recorded_print};
ghost use Rattle.repo_model.specs.declared.item.Item.TheVariants.{CachedFile, CachedDoc};
ghost use Rattle.row_tables.specs.Items.{IsChange};

use mvn_metadata::Doc;
use outside::NoMemory;
use repo_model::{Item, Print};
use row_tables::Change;
use std::alloc::Global;
use texts::Text;

// The change of one item.
fn change_of(alloc: Global, item: Item) -> Result<Change, NoMemory>
    requires { IsChange (item ∷ []) }
    ensures { IfOk result (λ change. change ≡ item ∷ []) }
{
    let mut items = Vec::new(alloc);
    items.push(item)?;
    Ok(Change::of(items))
}

/// The change that a file is which is kept.
pub fn file_change(
    alloc: Global,
    proxy: &Text,
    path: &str,
    blob: u64,
    print: Print,
    accepted: u64,
) -> Result<Change, NoMemory>
    requires { IsChange (CachedFile proxy.now path.now blob (recorded_print print) accepted ∷ []) }
    ensures { IfOk result (λ change. change ≡ CachedFile proxy.now path.now blob (recorded_print print) accepted ∷ []) }
{
    let repo = proxy.copied(alloc)?;
    let path = Text::new(alloc, path)?;
    change_of(
        alloc,
        Item::CachedFile {
            repo,
            path,
            blob,
            print: print.recorded(),
            accepted,
        },
    )
}

/// The change that a document is which is kept.
pub fn document_change(
    alloc: Global,
    proxy: &Text,
    path: &str,
    checked: u64,
    document: &Doc,
) -> Result<Change, NoMemory>
    requires { IsChange (CachedDoc proxy.now path.now checked document.now ∷ []) }
    ensures { IfOk result (λ change. change ≡ CachedDoc proxy.now path.now checked document.now ∷ []) }
{
    let repo = proxy.copied(alloc)?;
    let path = Text::new(alloc, path)?;
    let document = document.copied(alloc)?;
    change_of(
        alloc,
        Item::CachedDoc {
            repo,
            path,
            checked,
            document,
        },
    )
}
