//! A hosted repository.
ghost use Rattle.std.specs.Prelude.{◌≡◌, ◌≢◌, ◌<◌, ◌≤◌, ◌-◌, ◌⊎◌, ◌∷◌, ◌++◌, [], if◌then◌else◌, min, None, IfOk, OnOk, OnErr, IsTrue, ℕ, List, true, false, length, count_by, map, take, string_bytes};
ghost use Rattle.std.specs.List.{AllByRecursion, flat_map, list_all};
ghost use Rattle.std.specs.Option.{option_map};
ghost use Rattle.mvn_coords.specs.Kind.{kind};
ghost use Rattle.repo_model.specs.Deploy.{offence, without_pom};
ghost use Rattle.repo_model.specs.Document.{document};
ghost use Rattle.repo_model.specs.Effect.{list_again, new_row, recorded, with_row};
ghost use Rattle.repo_model.specs.History.{latest_moment};
ghost use Rattle.repo_model.specs.Paths.{file_in, is_snapshot_path, takes_file};
ghost use Rattle.repo_model.specs.Purge.{due_rows, expired_of, fade_all, most_rows};
ghost use Rattle.repo_model.specs.Reply.{created, is_free, relisted};
ghost use Rattle.repo_model.specs.Shown.{shown_parcel};
ghost use Rattle.repo_model.specs.State.{change_where, is_repository, is_row, row_at, new_hosted};
ghost use Rattle.repo_model.specs.Turn.{seen_at};
ghost use Rattle.row_tables.specs.Leaving.{FitWhereTold, Leaves, MayTake, end_by, end_of};
ghost use Rattle.row_tables.specs.Items.{is_id, is_item, is_of, item_bytes};
ghost use Rattle.row_tables.specs.declared.version.Version.TheVariants.{Second};
ghost use Rattle.hosted_delivery.specs.Deliveries.{LeavesDelivery, blobs_of, deliveries, delivery, is_done, is_recordable, left_by, shown_files, shown_put_all};
ghost use Rattle.hosted_repo.specs.Expired.{blob_of};
ghost use Rattle.ordered_rows.specs.Recording.{IsRemoved};
ghost use Rattle.directory_rows.specs.Rules.{shown_rule};
ghost use Rattle.hosted_repo.specs.Releases.{FadesAt};
ghost use Rattle.hosted_repo.specs.Releases.{AllFadeRightly};
ghost use Rattle.kept_docs.specs.Kept.{AreOf};
ghost use Rattle.ordered_rows.specs.Rows.{AreFiles};
ghost use Rattle.ordered_rows.specs.Rows.{fades, shown_at, rows_after_all};
ghost use Rattle.hosted_repo.specs.Puts.{shown_put, put_turn, puts_row, lists_row, GivesBack, IsPut};
ghost use Rattle.hosted_repo.specs.Seens.{shown_seen, is_of_document};

use crate::put::Put;
use crate::seen::Seen;
use crate::{delivering, looks, purge, storing};
use directory_rows::{MOST_ROWS, Rule, due_paths};
use hosted_delivery::{PutAll, judge};
use kept_docs::Docs;
use mvn_coords::{Dir, Kind};
use mvn_metadata::Doc;
use ordered_rows::{CountedRows, Row, Standing, find, print_of, sizes, standing};
use outside::{Held, NoMemory, Parcel};
use repo_model::{Item, Numbers};
use row_tables::{Change, CommitFault, Records};
use std::alloc::Global;
use std::collections::BTreeMap;
use std::marker::Model;

/// A hosted repository: its rule and its rows, each path once and the path of a file, in byte order of path. Only rows of
/// snapshots are unlisted. Of each directory with a visible row its document is kept, as it is written.
#[derive(Drop)]
pub struct Hosted<H: Held> {
    alloc: Global,
    rule: Rule,
    rows: CountedRows<H>,
    docs: Docs,
}

impl<H: Held> Model for Hosted<H> {
    ghost use Rattle.std.specs.Prelude.{IsTrue};
    ghost use Rattle.repo_model.specs.Data as plain;

    ghost Value = { plain.Hosted };

    ghost use Rattle.directory_rows.specs.Rules.{shown_rule};

    ghost view = { λ h. record { rule = shown_rule h.rule; rows = h.rows } };

    ghost use Rattle.hosted_repo.specs.Releases.{AllFadeRightly};
    ghost use Rattle.ordered_rows.specs.Rows.{AreFiles};
    ghost use Rattle.row_tables.specs.Items.{is_id};
    ghost use Rattle.kept_docs.specs.Kept.{AreOf};

    ghost invariant = { λ h. record {
      named : IsTrue (is_id h.rule.id);
      files : AreFiles h.rows;
      fading : AllFadeRightly h.rows;
      kept : AreOf h.docs h.rows;
    } };
}

impl<H: Held> Hosted<H> {
    /// A repository without rows. Its id has 1 to 64 bytes of a-z, 0-9 and -.
    pub fn new(alloc: Global, rule: Rule) -> Hosted<H>
        requires { IsTrue (is_id rule.id) }
        ensures { result ≡ new_hosted (shown_rule rule) }
    {
        let rows = CountedRows::new(alloc);
        let docs = Docs::new(alloc);
        Hosted {
            alloc,
            rule,
            rows,
            docs,
        }
    }

    /// Its rule.
    pub fn rule(&self) -> &Rule
        ensures { shown_rule result.now ≡ self.now.rule }
    {
        &self.rule
    }

    /// Whether this is its id.
    pub fn has_id(&self, id: &str) -> bool
        ensures { result ≡ is_repository id.now self.now }
    {
        self.rule.id.as_str() == id
    }

    /// Whether it takes what a path of this kind names: files of releases, of snapshots, or of both.
    pub fn may_put(&self, kind: &Kind<'_>) -> bool
        ensures { result ≡ takes_file self.now.rule (file_in (Ok kind.now)) }
    {
        self.rule.takes(kind)
    }

    /// What it has at a path. Of a document a share is given, and no memory is taken; that fails only where its text has too many
    /// shares to count.
    pub fn look(&self, path: &str) -> Result<Option<Seen<'_, H>>, NoMemory>
        ensures seen { IfOk result (λ s. shown_seen s ≡ seen_at self.now.rows path.now (kind path.now)) }
        ensures room { OnErr result (is_of_document (kind path.now) ≡ true) }
    {
        looks::look_at(&self.rows, &self.docs, path)
    }

    /// The row at a path.
    pub fn row(&self, path: &str) -> Option<&Row<H>>
        ensures { option_map (λ row. shown_at path.now row.now) result ≡ row_at path.now self.now.rows }
    {
        find(self.rows.map(), path)
    }

    /// Puts a stored blob at a path at a moment, in seconds since 1970 in UTC. A row of the same content stays its file and
    /// is visible again, and one of another content stays as it is. A new row, and one that is visible again, is recorded
    /// first; where that fails nothing is changed.
    pub fn put<K: Records>(
        &mut self,
        records: &mut K,
        path: &str,
        parcel: Parcel<H>,
        now: u64,
    ) -> Put<H>
        requires form { IsPut path.now (shown_parcel parcel) now }
        requires records { MayTake (recorded (put_turn self.old path.now (shown_parcel parcel) now).effects) (K.shows records.old) }
        ensures reply { let turn = put_turn self.old path.now (shown_parcel parcel) now in
            (shown_put result ≡ turn.reply) ⊎ (IsTrue (is_free (shown_put result)) × (recorded turn.effects ≢ [])) }
        ensures rows { let turn = put_turn self.old path.now (shown_parcel parcel) now in
            self.new ≡ (if is_free (shown_put result) then self.old else record self.old { rows = rows_after_all turn.effects self.old.rows }) }
        ensures records { Leaves (recorded (put_turn self.old path.now (shown_parcel parcel) now).effects) (end_by (shown_put result)) (K.shows records.old) (K.shows records.new) }
        ensures parcel { GivesBack result parcel }
    {
        match standing(self.rows.map(), path, print_of(&parcel)) {
            Standing::Free => self.create(records, path, parcel, now),
            Standing::Other(kept) => Put::Taken { kept, sent: parcel },
            Standing::Same => Put::Same(parcel),
            Standing::Unlisted => self.relist(records, path, parcel, now),
        }
    }

    // Puts a stored blob at a path that has no row.
    fn create<K: Records>(
        &mut self,
        records: &mut K,
        path: &str,
        parcel: Parcel<H>,
        now: u64,
    ) -> Put<H>
        requires free { row_at path.now self.old.rows ≡ None }
        requires form { IsPut path.now (shown_parcel parcel) now }
        requires records { MayTake (puts_row self.old.rule.id path.now (shown_parcel parcel) now) (K.shows records.old) }
        ensures reply { (shown_put result ≡ created) ⊎ IsTrue (is_free (shown_put result)) }
        ensures rows { self.new ≡ (if is_free (shown_put result) then self.old
            else record self.old { rows = with_row (new_row path.now (shown_parcel parcel) now) self.old.rows }) }
        ensures records { Leaves (puts_row self.old.rule.id path.now (shown_parcel parcel) now) (end_by (shown_put result)) (K.shows records.old) (K.shows records.new) }
        ensures parcel { GivesBack result parcel }
    {
        sizes(parcel.digests);
        let id = &self.rule.id;
        match storing::create(
            self.alloc,
            &mut self.rows,
            &mut self.docs,
            records,
            id,
            path,
            &parcel,
            now,
        ) {
            Ok(()) => Put::Created,
            Err(CommitFault::Failed) => Put::StoreFault(parcel),
            Err(CommitFault::NoMemory) => Put::NoMemory(parcel),
        }
    }

    // Puts a stored blob at a path that has an unlisted row of the same content.
    fn relist<K: Records>(
        &mut self,
        records: &mut K,
        path: &str,
        parcel: Parcel<H>,
        now: u64,
    ) -> Put<H>
        requires form { IsPut path.now (shown_parcel parcel) now }
        requires snapshot { is_snapshot_path path.now ≡ true }
        requires faded { FadesAt path.now self.old.rows }
        requires records { MayTake (lists_row self.old.rule.id path.now now) (K.shows records.old) }
        ensures reply { (shown_put result ≡ relisted) ⊎ IsTrue (is_free (shown_put result)) }
        ensures rows { self.new ≡ (if is_free (shown_put result) then self.old
            else record self.old { rows = change_where (is_row path.now) (list_again now) self.old.rows }) }
        ensures records { Leaves (lists_row self.old.rule.id path.now now) (end_by (shown_put result)) (K.shows records.old) (K.shows records.new) }
        ensures parcel { GivesBack result parcel }
    {
        let id = &self.rule.id;
        match storing::relist(
            self.alloc,
            &mut self.rows,
            &mut self.docs,
            records,
            id,
            path,
            now,
        ) {
            Ok(()) => Put::Relisted(parcel),
            Err(CommitFault::Failed) => Put::StoreFault(parcel),
            Err(CommitFault::NoMemory) => Put::NoMemory(parcel),
        }
    }

    /// Deploys staged files all at once at a moment, in seconds since 1970 in UTC, together with one more item. What stands
    /// against it is found first: a path whose row has another content, and then a release directory without its pom, staged or
    /// visible; the first in byte order is named. Rows of the same content stay and are visible again. All is recorded as one
    /// change before it is seen; where that fails nothing is changed.
    pub fn put_all<K: Records>(
        &mut self,
        records: &mut K,
        staged: &BTreeMap<String, Parcel<H>>,
        also: Item,
        now: u64,
    ) -> PutAll
        requires moment { now ≤ latest_moment }
        requires ready { (K.shows records.old).IsReady }
        requires files { IsTrue (list_all is_recordable (shown_files staged.now.entries)) }
        requires few { length (shown_files staged.now.entries) ≤ most_rows }
        requires also { IsTrue (is_item also) }
        requires whole { IsTrue (is_of Second also) }
        requires short { length (item_bytes also) < 65536 }
        requires fits { offence self.old.rows (shown_files staged.now.entries) ≡ None → without_pom self.old.rows (shown_files staged.now.entries) ≡ None
            → FitWhereTold (K.shows records.old).tables (recorded (deliveries self.old (shown_files staged.now.entries) now) ++ also ∷ []) }
        ensures reply { (shown_put_all result ≡ (delivery self.old (shown_files staged.now.entries) now).reply) ⊎ IsTrue (is_free (shown_put_all result)) }
        ensures asked { result ≡ PutAll.StoreFault → (offence self.old.rows (shown_files staged.now.entries) ≡ None) × (without_pom self.old.rows (shown_files staged.now.entries) ≡ None) }
        ensures rows { self.new ≡ (if is_done result
            then record self.old { rows = rows_after_all (deliveries self.old (shown_files staged.now.entries) now) self.old.rows } else self.old) }
        ensures blobs { blobs_of result ≡ (if is_done result then flat_map left_by (deliveries self.old (shown_files staged.now.entries) now) else []) }
        ensures records { LeavesDelivery (recorded (deliveries self.old (shown_files staged.now.entries) now) ++ also ∷ []) result (K.shows records.old) (K.shows records.new) }
    {
        if let Err(answer) = judge(self.alloc, self.rows.map(), staged) {
            return answer;
        }
        let id = &self.rule.id;
        match delivering::deliver_all(
            self.alloc,
            &mut self.rows,
            &mut self.docs,
            records,
            id,
            staged,
            also,
            now,
        ) {
            Ok(blobs) => PutAll::Done {
                count: staged.len() as u64,
                blobs: Numbers::from_vec(blobs),
            },
            Err(CommitFault::Failed) => PutAll::StoreFault,
            Err(CommitFault::NoMemory) => PutAll::NoMemory,
        }
    }

    /// A repository of these parts: rows at paths of files, of which only snapshots' are unlisted, and the documents of their
    /// directories.
    pub(crate) fn of_parts(alloc: Global, rule: Rule, rows: CountedRows<H>, docs: Docs) -> Hosted<H>
        requires named { IsTrue (is_id rule.id) }
        requires files { AreFiles rows }
        requires fading { AllFadeRightly rows }
        requires kept { AreOf docs rows }
        ensures { result ≡ record { rule = shown_rule rule; rows = rows } }
    {
        Hosted {
            alloc,
            rule,
            rows,
            docs,
        }
    }

    /// A copy of the document of a directory, which has its visible rows; none where there are none.
    pub fn document(&self, dir: &Dir<'_>) -> Result<Option<Doc>, NoMemory>
        ensures { IfOk result (λ d. d ≡ document dir.now self.now.rows) }
    {
        match self.docs.get(dir) {
            Some(kept) => Ok(Some(kept.doc.copied(self.alloc)?)),
            None => Ok(None),
        }
    }

    /// How many rows it has, and how many of them are unlisted.
    pub fn counts(&self) -> (u64, u64)
        ensures all { result.0 ≡ length self.now.rows }
        ensures fading { result.1 ≡ count_by fades self.now.rows }
    {
        self.rows.counts()
    }

    /// The paths of the rows that are to fade at a moment, at most 1,000,000, in byte order: the visible files of builds that
    /// the rule no longer keeps (Maven 2 repository layout). Each snapshot directory's builds are ranked once; a row is looked
    /// at once for each snapshot directory above it, of which a path has fewer than a hundred.
    pub fn due_paths(&self, now: u64) -> Result<Vec<String>, NoMemory>
        ensures { IfOk result (λ paths. map string_bytes paths.items ≡ map (λ row. row.path) (due_rows self.now.rule now self.now.rows)) }
    {
        due_paths(self.alloc, &self.rows, &self.rule, now)
    }

    /// Unlists the rows that are to fade at a moment, in seconds since 1970 in UTC, those of `due_paths`, and gives how many.
    /// They are still answered, and named by no document. That they fade is recorded first; where that fails nothing is
    /// changed.
    pub fn unlist<K: Records>(&mut self, records: &mut K, now: u64) -> Result<u64, CommitFault>
        requires moment { now ≤ latest_moment }
        requires records { MayTake (recorded (fade_all self.old now)) (K.shows records.old) }
        ensures count { IfOk result (λ n. n ≡ length (due_rows self.old.rule now self.old.rows)) }
        ensures rows { OnOk result (self.new ≡ record self.old { rows = rows_after_all (fade_all self.old now) self.old.rows }) }
        ensures err { OnErr result (self.new ≡ self.old) }
        ensures asked { result ≡ Err CommitFault.Failed → recorded (fade_all self.old now) ≢ [] }
        ensures records { Leaves (recorded (fade_all self.old now)) (end_of result) (K.shows records.old) (K.shows records.new) }
        // All files and their side files are answered as before.
        ensures answered { (path : List ℕ) → is_of_document (kind path) ≡ false
            → seen_at self.new.rows path (kind path) ≡ seen_at self.old.rows path (kind path) }
    {
        purge::unlist_rows(
            self.alloc,
            &mut self.rows,
            &mut self.docs,
            records,
            &self.rule,
            now,
        )
    }

    /// The first rows whose grace period, in seconds, is over at a moment, in byte order of path: what `drop_expired` takes
    /// away with their count. Their removals are added to a change while it has fewer than 1,000,000 items, and their blobs to
    /// a list; it gives how many there are. When memory runs out both are as before.
    pub fn expiring(
        &self,
        grace: u64,
        now: u64,
        change: &mut Change,
        blobs: &mut Vec<u64>,
    ) -> Result<u64, NoMemory>
        requires { AllByRecursion IsRemoved change.old }
        ensures count { IfOk result (λ n. n ≡ min (most_rows - length change.old) (length (expired_of grace now self.now))) }
        ensures change { OnOk result (change.new ≡ change.old ++ recorded (take (most_rows - length change.old) (expired_of grace now self.now))) }
        ensures blobs { OnOk result (blobs.new.items ≡ blobs.old.items ++ map blob_of (take (most_rows - length change.old) (expired_of grace now self.now))) }
        ensures unchanged { OnErr result (change.new ≡ change.old) }
        ensures untaken { OnErr result (blobs.new.items ≡ blobs.old.items) }
    {
        let most = MOST_ROWS.saturating_sub(change.items().len()) as u64;
        let gone = purge::first_expired(self.alloc, &self.rows, now.saturating_sub(grace), most)?;
        purge::add_gone(self.alloc, &self.rule.id, &gone, change, blobs)
    }

    /// Takes the first `count` rows away whose grace period, in seconds, is over at a moment. It takes no memory; that they go
    /// was recorded with `expiring`.
    pub fn drop_expired(&mut self, grace: u64, now: u64, count: u64)
        ensures { self.new ≡ record self.old { rows = rows_after_all (take count (expired_of grace now self.old)) self.old.rows } }
    {
        // Its contract says that the paths rise.
        let _len = self.rows.map().len();
        self.rows.drop_first(now.saturating_sub(grace), count);
    }
}
