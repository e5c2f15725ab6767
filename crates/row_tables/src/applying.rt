//! How items are applied to the tables.
ghost use Rattle.std.specs.Prelude.{◌≡◌, IsTrue, IfOk, OnErr};
ghost use Rattle.std.specs.List.{list_all};
ghost use Rattle.repo_model.specs.Tables.{fits_on, item_on};
ghost use Rattle.row_tables.specs.Applying.{Tried, Applies};
ghost use Rattle.row_tables.specs.Items.{IsHosted, is_item};
ghost use Rattle.repo_model.specs.declared.item.Item.TheVariants.{CachedDoc, Digested};

use crate::change::Change;
use crate::documents::KeptDocument;
use crate::faults::ApplyFault;
use crate::files::{FileRow, RowPhase};
use crate::paths::new_place;
use crate::tables::Tables;
use mvn_digest::Further;
use mvn_metadata::Doc;
use repo_model::{Item, Recorded};
use std::alloc::{AllocError, Global};
use texts::Text;

// A visible row.
fn listed(blob: u64, print: Recorded, accepted: u64) -> FileRow
    ensures { result ≡ record { blob = blob; print = print; accepted = accepted; phase = RowPhase.Listed } }
{
    FileRow {
        blob,
        print,
        accepted,
        phase: RowPhase::Listed,
    }
}

impl Tables {
    // Keeps a document of a proxy.
    fn keep_copy(
        &mut self,
        alloc: Global,
        repo: &Text,
        path: &Text,
        checked: u64,
        document: &Doc,
    ) -> Result<bool, AllocError>
        ensures ok { IfOk result (Tried (fits_on self.old (CachedDoc repo.now path.now checked document.now))
            (item_on self.old (CachedDoc repo.now path.now checked document.now)) self.old self.new) }
        ensures err { OnErr result (self.new ≡ self.old) }
    {
        let place = new_place(alloc, repo, path)?;
        let document = document.copied(alloc)?;
        self.keep(place, KeptDocument { checked, document })?;
        Ok(true)
    }

    // Completes the digests of a file that lacks SHA-256 and SHA-512.
    fn complete(
        &mut self,
        alloc: Global,
        repo: &Text,
        path: &Text,
        further: Further,
    ) -> Result<bool, AllocError>
        ensures ok { IfOk result (Tried (fits_on self.old (Digested repo.now path.now further))
            (item_on self.old (Digested repo.now path.now further)) self.old self.new) }
        ensures err { OnErr result (self.new ≡ self.old) }
    {
        let place = new_place(alloc, repo, path)?;
        Ok(self.digest(&place, further))
    }

    // Applies an item of a hosted repository, where it fits.
    fn apply_hosted(&mut self, alloc: Global, item: &Item) -> Result<bool, AllocError>
        requires { IsHosted item.now }
        ensures ok { IfOk result (Tried (fits_on self.old item.now) (item_on self.old item.now) self.old self.new) }
        ensures err { OnErr result (self.new ≡ self.old) }
    {
        match item {
            Item::HostedPut {
                repo,
                path,
                blob,
                print,
                accepted,
            } => {
                let place = new_place(alloc, repo, path)?;
                self.put_hosted(place, listed(*blob, *print, *accepted))
            }
            Item::Faded { repo, path, moment } => {
                let place = new_place(alloc, repo, path)?;
                Ok(self.fade(&place, *moment))
            }
            Item::Relisted {
                repo,
                path,
                accepted,
            } => {
                let place = new_place(alloc, repo, path)?;
                Ok(self.relist(&place, *accepted))
            }
            Item::Removed { repo, path } => {
                let place = new_place(alloc, repo, path)?;
                Ok(self.remove(&place))
            }
            _ => unreachable!(),
        }
    }

    // Applies an item, where it fits.
    fn apply_item(&mut self, alloc: Global, item: &Item) -> Result<bool, AllocError>
        requires { IsTrue (is_item item.now) }
        ensures ok { IfOk result (Tried (fits_on self.old item.now) (item_on self.old item.now) self.old self.new) }
        ensures err { OnErr result (self.new ≡ self.old) }
    {
        match item {
            Item::CachedFile {
                repo,
                path,
                blob,
                print,
                accepted,
            } => {
                let place = new_place(alloc, repo, path)?;
                self.put_cached(place, listed(*blob, *print, *accepted))
            }
            Item::CachedDoc {
                repo,
                path,
                checked,
                document,
            } => { self.keep_copy(alloc, repo, path, *checked, document) }
            Item::SessionOpened(number) => self.open_session(*number),
            Item::SessionEnded { session, result } => Ok(self.end_session(*session, *result)),
            Item::Digested {
                repo,
                path,
                further,
            } => self.complete(alloc, repo, path, *further),
            _ => self.apply_hosted(alloc, item),
        }
    }

    // Applies items in their order, up to the first that does not fit.
    pub(crate) fn apply_items(&mut self, alloc: Global, items: &[Item]) -> Result<(), ApplyFault>
        requires { IsTrue (list_all is_item items.now) }
        ensures { Applies self.old items.now self.new result }
    {
        for (place, item) in items.iter().enumerate() {
            if !self.apply_item(alloc, item)? {
                return Err(ApplyFault::Misfit { item: place as u64 });
            }
        }
        Ok(())
    }

    /// Applies the items of a change, in their order. At the first that does not fit it stops; those before it stay
    /// applied. When memory runs out some of the first ones, which fit, stay applied.
    pub fn apply(&mut self, alloc: Global, change: &Change) -> Result<(), ApplyFault>
        ensures { Applies self.old change.now self.new result }
    {
        self.apply_items(alloc, change.items())
    }
}
