//! The changes that are recorded of a repository's rows, made of copies.
ghost use Rattle.std.specs.Prelude.{◌≡◌, ◌∷◌, [], map, IfOk};
ghost use Rattle.repo_model.specs.Effect.{recorded};
ghost use Rattle.repo_model.specs.Prints.{recorded_print};
ghost use Rattle.repo_model.specs.declared.item.Item.TheVariants.{HostedPut, Relisted};
ghost use Rattle.row_tables.specs.Items.{IsChange};
ghost use Rattle.hosted_repo.specs.Fades.{fade_at_paths};
ghost use Rattle.hosted_repo.specs.Expired.{shown_expired};

use crate::purge::Expired;
use outside::NoMemory;
use repo_model::{Item, Print};
use row_tables::Change;
use std::alloc::Global;
use texts::Text;

/// The change of one item.
pub fn change_of(alloc: Global, item: Item) -> Result<Change, NoMemory>
    requires { IsChange (item ∷ []) }
    ensures { IfOk result (λ change. change ≡ item ∷ []) }
{
    let mut items = Vec::new(alloc);
    items.push(item)?;
    Ok(Change::of(items))
}

/// The change that a new row is.
pub fn put_change(
    alloc: Global,
    repo: &Text,
    path: &str,
    blob: u64,
    print: Print,
    accepted: u64,
) -> Result<Change, NoMemory>
    requires { IsChange (HostedPut repo.now path.now blob (recorded_print print) accepted ∷ []) }
    ensures { IfOk result (λ change. change ≡ HostedPut repo.now path.now blob (recorded_print print) accepted ∷ []) }
{
    let repo = repo.copied(alloc)?;
    let path = Text::new(alloc, path)?;
    change_of(
        alloc,
        Item::HostedPut {
            repo,
            path,
            blob,
            print: print.recorded(),
            accepted,
        },
    )
}

/// The change that a row is which is visible again.
pub fn relist_change(
    alloc: Global,
    repo: &Text,
    path: &str,
    accepted: u64,
) -> Result<Change, NoMemory>
    requires { IsChange (Relisted repo.now path.now accepted ∷ []) }
    ensures { IfOk result (λ change. change ≡ Relisted repo.now path.now accepted ∷ []) }
{
    let repo = repo.copied(alloc)?;
    let path = Text::new(alloc, path)?;
    change_of(
        alloc,
        Item::Relisted {
            repo,
            path,
            accepted,
        },
    )
}

/// The change that rows at some paths are which fade since a moment.
pub fn fade_change(
    alloc: Global,
    repo: &Text,
    paths: &[String],
    moment: u64,
) -> Result<Change, NoMemory>
    requires { IsChange (recorded (fade_at_paths repo.now moment paths.now)) }
    ensures { IfOk result (λ change. change ≡ recorded (fade_at_paths repo.now moment paths.now)) }
{
    let mut items = Vec::new(alloc);
    for path in paths {
        items.push(Item::Faded {
            repo: repo.copied(alloc)?,
            path: Text::new(alloc, path.as_str())?,
            moment,
        })?;
    }
    Ok(Change::of(items))
}

/// The removals of rows, which are recorded with those of other repositories.
pub fn removals(alloc: Global, repo: &Text, gone: &[Expired]) -> Result<Vec<Item>, NoMemory>
    ensures { IfOk result (λ items. items.items ≡ recorded (map (shown_expired repo.now) gone.now)) }
{
    let mut items = Vec::new(alloc);
    for row in gone {
        items.push(Item::Removed {
            repo: repo.copied(alloc)?,
            path: Text::new(alloc, row.path.as_str())?,
        })?;
    }
    Ok(items)
}
