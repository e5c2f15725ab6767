ghost use Rattle.std.specs.Prelude.{◌≡◌, ◌<◌, ◌^◌, ◌↔◌, [], ◌∷◌, ◌++◌, length, IsTrue, OnOk, OnErr, IfErr};
ghost use Rattle.row_tables.specs.Items.{IsChange, are_of, is_item, is_of, change_bytes};
ghost use Rattle.row_tables.specs.declared.version.Version.TheVariants.{Second};

use repo_model::Item;
use std::alloc::{AllocError, AllocFailed, Global};
use std::marker::Model;

/// Items that are recorded together: each has the recorded form, and together they have fewer than 2^32 bytes as they are
/// written.
#[derive(Drop)]
pub struct Change {
    items: Vec<Item>,
}

impl Model for Change {
    ghost use Rattle.std.specs.Prelude.{List};
    ghost use Rattle.repo_model.specs.declared.item.Item.{Item};
    ghost use Rattle.row_tables.specs.Items.{IsChange};

    ghost Value = { List Item };

    ghost view = { λ c. c.items.items };

    ghost invariant = { λ c. IsChange c.items.items };
}

// Whether a file has its SHA-256 and SHA-512.
fn has_further(item: &Item) -> bool
    ensures { result ≡ is_of Second item.now }
{
    match item {
        Item::HostedPut { print, .. } => print.digests.further.is_some(),
        Item::CachedFile { print, .. } => print.digests.further.is_some(),
        _ => true,
    }
}

impl Change {
    /// No items.
    pub fn new(alloc: Global) -> Change
        ensures { result ≡ [] }
    {
        Change {
            items: Vec::new(alloc),
        }
    }

    /// The change of these items, which takes no memory.
    pub fn of(items: Vec<Item>) -> Change
        requires { IsChange items.items }
        ensures { result ≡ items.items }
    {
        Change { items }
    }

    /// Adds an item. When memory runs out it comes back.
    pub fn push(&mut self, item: Item) -> Result<(), AllocFailed<Item>>
        requires form { IsTrue (is_item item) }
        requires room { length (change_bytes (self.old ++ item ∷ [])) < 2 ^ 32 }
        ensures ok { OnOk result (self.new ≡ self.old ++ item ∷ []) }
        ensures err { OnErr result (self.new ≡ self.old) }
        ensures back { IfErr result (λ failed. failed.value ≡ item) }
    {
        self.items.push(item)
    }

    /// Adds items at its end. When memory runs out it stays as it is.
    pub fn append(&mut self, mut items: Vec<Item>) -> Result<(), AllocError>
        requires { IsChange (self.old ++ items.items) }
        ensures ok { OnOk result (self.new ≡ self.old ++ items.items) }
        ensures err { OnErr result (self.new ≡ self.old) }
    {
        self.items.append(&mut items)
    }

    /// The items, lent.
    pub fn items(&self) -> &[Item]
        ensures items { result.now ≡ self.now }
        ensures form { IsChange self.now }
    {
        self.items.as_slice()
    }

    /// Whether each of its files has its SHA-256 and SHA-512, as a change has that is committed.
    pub fn is_whole(&self) -> bool
        ensures { result ≡ are_of Second self.now }
    {
        self.items.iter().all(|item| has_further(item))
    }

    /// How many items it has.
    pub fn len(&self) -> usize
        ensures { result ≡ length self.now }
    {
        self.items.len()
    }

    /// Whether it has no items.
    pub fn is_empty(&self) -> bool
        ensures { IsTrue result ↔ (self.now ≡ []) }
    {
        self.items.is_empty()
    }
}
