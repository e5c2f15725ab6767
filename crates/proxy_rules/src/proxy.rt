//! A proxy of a remote repository.
ghost use Rattle.std.specs.Prelude.{◌≡◌, ◌<◌, ◌≤◌, ◌⊎◌, [], ◌∷◌, None, if◌then◌else◌, IfOk, OnOk, OnErr, IfErr, IsTrue, length};
ghost use Rattle.std.specs.Option.{ForSome, option_map, option_copied};
ghost use Rattle.mvn_coords.specs.Kind.{kind};
ghost use Rattle.mvn_digest.specs.Digests.{digests_of};
ghost use Rattle.mvn_metadata.specs.Written as written;
ghost use Rattle.repo_model.specs.Command.{is_landing, longest_landed, names_document};
ghost use Rattle.repo_model.specs.Effect.{clears_negative, keeps_doc, new_row, recorded, with_kept, with_negative, with_row};
ghost use Rattle.repo_model.specs.History.{latest_moment};
ghost use Rattle.repo_model.specs.Proxies.{decided, kept_at, settled_at, step_out, subject_of};
ghost use Rattle.repo_model.specs.Shown.{outcome_map, shown_got, shown_parcel};
ghost use Rattle.repo_model.specs.State.{is_proxy, new_proxy, number_end, row_at};
ghost use Rattle.repo_model.specs.Turn.{lands_file};
ghost use Rattle.row_tables.specs.Items.{is_file_path, is_id, is_number};
ghost use Rattle.row_tables.specs.Leaving.{MayTake};
ghost use Rattle.proxy_rules.specs.Landings.{Lands, has_failed, landing, shown_landed};
ghost use Rattle.proxy_rules.specs.Rules.{shown_rule};

use crate::keeping::{keep_document, keep_file};
use crate::landed::Landed;
use crate::rule::Rule;
use crate::settling::settled;
use crate::subjects::subject_of;
use fetch_plan::{Outcome, Plan};
use mvn_coords::{Kind, kind_of};
use mvn_digest::Digests;
use mvn_metadata::Doc;
use ordered_rows::{CountedRows, Phase, Row, find, sizes};
use outside::{Held, NoMemory, Parcel};
use path_patterns::is_let_through;
use proxy_entries::{
    Kept, add_negative, document_step, find as kept_at, put, remove_negative, step_out,
};
use repo_model::{Got, Step};
use row_tables::Records;
use std::alloc::Global;
use std::collections::BTreeMap;
use std::marker::Model;

/// A proxy: its rule; the files that it keeps for good, each path once; the documents that it keeps; and its negative entries, the paths at
/// which its remote had nothing, each with the moment at which it was asked. All are in byte order of path, and of negative entries there are
/// 10,000 at most.
#[derive(Drop)]
pub struct Proxy<H: Held> {
    alloc: Global,
    rule: Rule,
    files: CountedRows<H>,
    documents: BTreeMap<String, Kept>,
    negatives: BTreeMap<String, u64>,
}

impl<H: Held> Model for Proxy<H> {
    ghost use Rattle.repo_model.specs.Data as plain;

    ghost Value = { plain.Proxy };

    ghost use Rattle.std.specs.Prelude.{◌≤◌, IsTrue, length};
    ghost use Rattle.repo_model.specs.Effect.{most_negatives};
    ghost use Rattle.row_tables.specs.Items.{is_id};
    ghost use Rattle.ordered_rows.specs.Rows.{AreFiles};
    ghost use Rattle.proxy_rules.specs.Rules.{shown_rule};
    ghost use Rattle.proxy_entries.specs.Stored.{AreInTime, shown_documents, shown_negatives};

    ghost view = { λ p. record {
      rule = shown_rule p.rule;
      files = p.files;
      documents = shown_documents p.documents.entries;
      negatives = shown_negatives p.negatives.entries;
    } };

    ghost invariant = { λ p. record {
      named : IsTrue (is_id p.rule.id);
      seconds : p.rule.negative_seconds ≤ 86400;
      files : AreFiles p.files;
      few : length p.negatives.entries ≤ most_negatives;
      timely : AreInTime (shown_negatives p.negatives.entries);
    } };
}

impl<H: Held> Proxy<H> {
    /// A proxy that keeps nothing yet. Its id has 1 to 64 bytes of a-z, 0-9 and -, and what its remote lacked counts as missing for at
    /// most 86,400 seconds.
    pub fn new(alloc: Global, rule: Rule) -> Proxy<H>
        requires named { IsTrue (is_id rule.id) }
        requires seconds { rule.negative_seconds ≤ 86400 }
        ensures { result ≡ new_proxy (shown_rule rule) }
    {
        Proxy {
            alloc,
            rule,
            files: CountedRows::new(alloc),
            documents: BTreeMap::new(alloc),
            negatives: BTreeMap::new(alloc),
        }
    }

    /// Its rule.
    pub fn rule(&self) -> &Rule
        ensures { shown_rule result.now ≡ self.now.rule }
    {
        &self.rule
    }

    /// Whether this is its id.
    pub fn has_id(&self, id: &str) -> bool
        ensures { result ≡ is_proxy id.now self.now }
    {
        self.rule.id.as_str() == id
    }

    /// What it does about a path at a moment, in seconds since 1970 in UTC, where its remote was tried already or not. A side file is
    /// judged by the path of its file or document. A file that it keeps is answered, and so is a document that need not be asked for
    /// again. Else the remote is asked, unless it was tried, the rule says never, or it had nothing there a short time ago; then a
    /// document that is kept is answered, however old. It takes no memory.
    pub fn decide(&self, path: &str, now: u64, tried: bool) -> Step
        ensures { result ≡ decided self.now now tried (subject_of path.now (kind path.now)) }
    {
        let path = subject_of(path);
        if !is_let_through(&self.rule.allow, &self.rule.block, path) {
            return Step::Blocked;
        }
        match kind_of(path) {
            Ok(Kind::File(_)) => match find(self.files.map(), path) {
                Some(_) => Step::Serve,
                None => self.out(path, now, tried),
            },
            Ok(Kind::Doc(_)) => {
                let out = self.out(path, now, tried);
                document_step(self.rule.update, &self.documents, path, now, out)
            }
            Ok(Kind::FileSide(_, _)) | Ok(Kind::DocSide(_, _)) | Err(_) => Step::Missed,
        }
    }

    // What is done where nothing that may be answered stands at the path.
    fn out(&self, path: &str, now: u64, tried: bool) -> Step
        ensures { result ≡ step_out self.now now tried path.now }
    {
        step_out(
            self.rule.update,
            self.rule.negative_seconds,
            &self.negatives,
            path,
            now,
            tried,
        )
    }

    /// The file that it keeps at a path.
    pub fn file(&self, path: &str) -> Option<&Parcel<H>>
        ensures { option_map (λ parcel. shown_parcel parcel.now) result ≡ option_map (λ row. row.blob) (row_at path.now self.now.files) }
    {
        match find(self.files.map(), path) {
            Some(row) => Some(&row.parcel),
            None => None,
        }
    }

    /// The document that it keeps at a path.
    pub fn document(&self, path: &str) -> Option<&Doc>
        ensures { option_copied result ≡ option_map (λ kept. kept.document) (kept_at path.now self.now.documents) }
    {
        match kept_at(&self.documents, path) {
            Some(kept) => Some(&kept.doc),
            None => None,
        }
    }

    /// The text of the document that it keeps at a path, and its digests.
    pub fn text(&self, path: &str) -> Option<(&[u8], Digests)>
        ensures text { option_map (λ t. t.0.now) result ≡ option_map (λ kept. written.text kept.document) (kept_at path.now self.now.documents) }
        ensures digests { option_map (λ t. t.1) result ≡ option_map (λ kept. digests_of (written.text kept.document)) (kept_at path.now self.now.documents) }
    {
        match kept_at(&self.documents, path) {
            Some(kept) => Some((kept.text.as_slice(), kept.digests)),
            None => None,
        }
    }

    /// How many files and how many documents it keeps.
    pub fn counts(&self) -> (u64, u64)
        ensures files { result.0 ≡ length self.now.files }
        ensures documents { result.1 ≡ length self.now.documents }
    {
        (self.files.counts().0, self.documents.len() as u64)
    }

    /// Takes up a file that is recorded: so a proxy starts. Nothing is recorded anew. When memory runs out the parcel comes
    /// back and nothing is changed.
    pub fn restore_file(
        &mut self,
        path: &str,
        parcel: Parcel<H>,
        accepted: u64,
    ) -> Result<(), Parcel<H>>
        requires path { IsTrue (is_file_path path.now) }
        requires free { row_at path.now self.old.files ≡ None }
        requires moment { accepted ≤ latest_moment }
        ensures ok { OnOk result (self.new ≡ record self.old { files = with_row (new_row path.now (shown_parcel parcel) accepted) self.old.files }) }
        ensures err { OnErr result (self.new ≡ self.old) }
        ensures back { IfErr result (λ back. back ≡ parcel) }
    {
        let row = Row {
            parcel,
            accepted,
            phase: Phase::Listed,
        };
        self.files.add(self.alloc, path, row)
    }

    /// Takes up a document that is recorded, checked at a moment, in the place of the one at its path: so a proxy starts. Nothing
    /// is recorded anew. When memory runs out nothing is changed.
    pub fn restore_document(&mut self, path: &str, doc: Doc, checked: u64) -> Result<(), NoMemory>
        requires { checked ≤ latest_moment }
        ensures ok { OnOk result (self.new ≡ record self.old {
          documents = with_kept (record { path = path.now; checked = checked; document = doc }) self.old.documents;
        }) }
        ensures err { OnErr result (self.new ≡ self.old) }
    {
        let kept = Kept::new(self.alloc, doc, checked)?;
        put(self.alloc, &mut self.documents, path, kept)
    }

    /// Lands what came of a fetch at a moment, in seconds since 1970 in UTC. A file is kept for good, unless one is there, and a
    /// document, settled for its directory, takes the place of the one that is there; both are recorded first. What the remote has
    /// is no longer missing, and what it lacks gets a negative entry: of 10,000 negative entries the oldest goes. All else changes nothing. Where the
    /// records fail or memory runs out nothing is changed.
    pub fn land<K: Records>(
        &mut self,
        records: &mut K,
        plan: &Plan,
        outcome: Outcome<Got<H>>,
        now: u64,
    ) -> Landed
        requires moment { now ≤ latest_moment }
        requires proxy { plan.now.proxy ≡ self.old.rule.id }
        requires landing { IsTrue (is_landing (kind plan.now.path) plan.now.draft (outcome_map shown_got outcome)) }
        requires draft { ForSome plan.now.draft (λ n. IsTrue (is_number n)) }
        requires records { MayTake (recorded (landing self.old now plan.now outcome)) (K.shows records.old) }
        ensures lands { Lands (landing self.old now plan.now outcome) self.old self.new (K.shows records.old) (K.shows records.new) result }
    {
        match outcome {
            Outcome::Got(Got::File(parcel)) => self.land_file(records, plan, parcel, now),
            Outcome::Got(Got::Doc(doc)) => self.land_document(records, plan, doc, now),
            Outcome::Gone => self.land_gone(plan.path.as_str(), now),
            _ => Landed::NotKept,
        }
    }

    // Lands a file.
    fn land_file<K: Records>(
        &mut self,
        records: &mut K,
        plan: &Plan,
        parcel: Parcel<H>,
        now: u64,
    ) -> Landed
        requires moment { now ≤ latest_moment }
        requires proxy { plan.now.proxy ≡ self.old.rule.id }
        requires path { IsTrue (is_file_path plan.now.path) }
        requires blob { IsTrue (is_number parcel.blob) }
        requires length { parcel.length < number_end }
        requires records { MayTake (recorded (lands_file plan.now (shown_parcel parcel) now (row_at plan.now.path self.old.files))) (K.shows records.old) }
        ensures lands { Lands (lands_file plan.now (shown_parcel parcel) now (row_at plan.now.path self.old.files)) self.old self.new (K.shows records.old) (K.shows records.new) result }
    {
        let path = plan.path.as_str();
        if find(self.files.map(), path).is_some() {
            remove_negative(&mut self.negatives, path);
            return Landed::NotKept;
        }
        // How long its digests are.
        sizes(parcel.digests);
        let id = &self.rule.id;
        if let Err(fault) = keep_file(self.alloc, &mut self.files, records, id, path, parcel, now) {
            return Landed::failed(fault);
        }
        remove_negative(&mut self.negatives, path);
        Landed::Kept
    }

    // Lands a document.
    fn land_document<K: Records>(
        &mut self,
        records: &mut K,
        plan: &Plan,
        doc: Doc,
        now: u64,
    ) -> Landed
        requires moment { now ≤ latest_moment }
        requires ready { (K.shows records.old).IsReady }
        requires proxy { plan.now.proxy ≡ self.old.rule.id }
        requires path { IsTrue (names_document (kind plan.now.path)) }
        requires short { length (written.text doc) ≤ longest_landed }
        ensures lands { Lands (keeps_doc plan.now.proxy plan.now.path (settled_at doc (kind plan.now.path)) now ∷ clears_negative plan.now.proxy plan.now.path ∷ [])
            self.old self.new (K.shows records.old) (K.shows records.new) result }
    {
        let path = plan.path.as_str();
        let Ok(Kind::Doc(dir)) = kind_of(path) else {
            unreachable!()
        };
        let Ok(kept) = settled(self.alloc, doc, &dir, now) else {
            return Landed::NoMemory;
        };
        let id = &self.rule.id;
        if let Err(fault) = keep_document(
            self.alloc,
            &mut self.documents,
            records,
            id,
            path,
            kept,
        ) {
            return Landed::failed(fault);
        }
        remove_negative(&mut self.negatives, path);
        Landed::NotKept
    }

    // Adds a negative entry of a path at which the remote has nothing.
    fn land_gone(&mut self, path: &str, now: u64) -> Landed
        requires moment { now ≤ latest_moment }
        ensures answer { (result ≡ Landed.NotKept) ⊎ (result ≡ Landed.NoMemory) }
        ensures proxy { self.new ≡ (if has_failed result then self.old
            else record self.old { negatives = with_negative (record { path = path.now; moment = now }) self.old.negatives }) }
    {
        match add_negative(self.alloc, &mut self.negatives, path, now) {
            Ok(()) => Landed::NotKept,
            Err(_) => Landed::NoMemory,
        }
    }
}
