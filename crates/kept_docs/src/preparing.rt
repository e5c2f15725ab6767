//! Documents that are written before a change is recorded, with the room that they need.
ghost use Rattle.std.specs.Prelude.{◌≡◌, ℕ, List, IfOk};
ghost use Rattle.kept_docs.specs.Drafted.{drafted};
ghost use Rattle.kept_docs.specs.Kept.{AreSame};
ghost use Rattle.kept_docs.specs.Placed.{HasRoom, placed};

use crate::docs::Docs;
use crate::drafts::Drafts;
use crate::pages::Page;
use outside::NoMemory;
use std::alloc::Global;

/// The drafts as they are written, for which there is room. Until they are placed no document changes.
pub fn prepared(alloc: Global, docs: &mut Docs, drafts: Drafts) -> Result<Vec<Page>, NoMemory>
    ensures same { AreSame docs.old docs.new }
    ensures room { IfOk result (λ pages. HasRoom docs.new pages.items) }
    ensures pages { IfOk result (λ pages. (text : List ℕ) → placed text docs.new pages.items ≡ drafted text docs.old drafts) }
{
    let pages = drafts.written(alloc)?;
    match docs.make_room(alloc, pages.as_slice()) {
        Ok(()) => Ok(pages),
        Err(error) => {
            docs.give_up(pages.as_slice());
            Err(error)
        }
    }
}
