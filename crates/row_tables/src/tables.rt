ghost use Rattle.std.specs.Prelude.{◌≡◌, ◌&&◌, ◌||◌, ◌==◌, ◌∷◌, ◌++◌, [], None, Some, not, is_none, find, filter, nat_lt, string_bytes, IfOk, OnOk, OnErr, List, ℕ};
ghost use Rattle.std.specs.List.{list_all, list_any};
ghost use Rattle.std.specs.BTreeMap.{values};
ghost use Rattle.row_tables.specs.declared.files.FileRow.{FileRow};
ghost use Rattle.repo_model.specs.Effect.{fade, list_again};
ghost use Rattle.repo_model.specs.Paths.{is_snapshot_path};
ghost use Rattle.repo_model.specs.State.{change_where};
ghost use Rattle.repo_model.specs.Tables.{RecordedSession, no_tables, names_blob, greatest_moment, is_recorded, recorded_at, with_recorded, change_recorded, digested, with_digests, with_document, lacks_at, is_listed_row, is_fading_row, is_session, is_open_session};
ghost use Rattle.row_tables.specs.Applying.{Tried};
ghost use Rattle.row_tables.specs.Stored.{shown_entry, shown_document, shown_documents, shown_rows, shown_sessions};

use crate::documents::{KeptDocument, keep_document};
use crate::files::{
    FileRow, Place, add_file, digest_file, fade_file, file_at, lacks_at, phase_at, relist_file,
    remove_file,
};
use crate::moments::{latest_document, latest_file};
use crate::paths::is_snapshot;
use crate::sessions::{SessionRow, end_in, is_next};
use mvn_digest::Further;
use repo_model::SessionResult;
use std::alloc::{AllocError, Global};
use std::collections::{BTreeMap, BTreeSet};
use std::marker::Model;

/// What the records hold: recorded files of hosted repositories and of proxies, kept documents, and sessions.
#[derive(Drop)]
pub struct Tables {
    hosted: BTreeMap<Place, FileRow>,
    cached: BTreeMap<Place, FileRow>,
    documents: BTreeMap<Place, KeptDocument>,
    sessions: Vec<SessionRow>,
    /// The numbers of all files' blobs. Those of files that were taken away may be among them.
    blobs: BTreeSet<u64>,
}

impl Model for Tables {
    ghost use Rattle.repo_model.specs.Tables.{Tables as Plain};

    ghost Value = { Plain };

    ghost use Rattle.row_tables.specs.Applying.{NamesAmong, AreRising};
    ghost use Rattle.row_tables.specs.Stored.{shown_rows, shown_documents, shown_sessions};

    ghost view = { λ t. record {
      hosted = shown_rows t.hosted.entries;
      cached = shown_rows t.cached.entries;
      documents = shown_documents t.documents.entries;
      sessions = shown_sessions t.sessions.items;
    } };

    ghost invariant = { λ t. NamesAmong t.blobs (record {
      hosted = shown_rows t.hosted.entries;
      cached = shown_rows t.cached.entries;
      documents = shown_documents t.documents.entries;
      sessions = shown_sessions t.sessions.items;
    }) × AreRising (shown_sessions t.sessions.items) };
}

// Whether a file of these has the blob of a number.
fn names(rows: &BTreeMap<Place, FileRow>, number: u64) -> bool
    ensures { result ≡ list_any (λ (r : FileRow). r.blob == number) (values rows.now) }
{
    rows.values().any(|row| row.blob == number)
}

impl Tables {
    /// Nothing.
    pub fn new(alloc: Global) -> Tables
        ensures { result ≡ no_tables }
    {
        Tables {
            hosted: BTreeMap::new(alloc),
            cached: BTreeMap::new(alloc),
            documents: BTreeMap::new(alloc),
            sessions: Vec::new(alloc),
            blobs: BTreeSet::new(alloc),
        }
    }

    /// The files of hosted repositories, in byte order of repository and then of path.
    pub fn hosted(&self) -> &BTreeMap<Place, FileRow>
        ensures { shown_rows result.now.entries ≡ self.now.hosted }
    {
        &self.hosted
    }

    /// The files of proxies, in byte order of proxy and then of path.
    pub fn cached(&self) -> &BTreeMap<Place, FileRow>
        ensures { shown_rows result.now.entries ≡ self.now.cached }
    {
        &self.cached
    }

    /// The documents that proxies keep, in byte order of proxy and then of path.
    pub fn documents(&self) -> &BTreeMap<Place, KeptDocument>
        ensures { shown_documents result.now.entries ≡ self.now.documents }
    {
        &self.documents
    }

    /// The sessions, in rising order of number.
    pub fn sessions(&self) -> &[SessionRow]
        ensures { shown_sessions result.now ≡ self.now.sessions }
    {
        &self.sessions
    }

    /// The greatest moment that is recorded: when a file was accepted, since when it is unlisted, or when a document was asked
    /// for; 0 where there is none.
    pub fn greatest_moment(&self) -> u64
        ensures { result ≡ greatest_moment self.now }
    {
        let latest = latest_file(&self.cached, latest_file(&self.hosted, 0));
        latest_document(&self.documents, latest)
    }

    // Whether a file has the blob of a number.
    fn names_blob(&self, number: u64) -> bool
        ensures { result ≡ names_blob number self.now }
    {
        self.blobs.contains(&number) && (names(&self.hosted, number) || names(&self.cached, number))
    }

    // Records a file of a hosted repository at a place, where it fits.
    pub(crate) fn put_hosted(&mut self, place: Place, row: FileRow) -> Result<bool, AllocError>
        ensures ok { IfOk result (Tried
            (is_none (recorded_at (string_bytes place.0) (string_bytes place.1) self.old.hosted) && not (names_blob row.blob self.old))
            (record self.old { hosted = with_recorded (shown_entry (place, row)) self.old.hosted }) self.old self.new) }
        ensures err { OnErr result (self.new ≡ self.old) }
    {
        if self.names_blob(row.blob) || file_at(&self.hosted, &place).is_some() {
            return Ok(false);
        }
        self.blobs.insert(row.blob)?;
        add_file(&mut self.hosted, place, row)?;
        Ok(true)
    }

    // Records a file of a proxy at a place, where it fits.
    pub(crate) fn put_cached(&mut self, place: Place, row: FileRow) -> Result<bool, AllocError>
        ensures ok { IfOk result (Tried
            (is_none (recorded_at (string_bytes place.0) (string_bytes place.1) self.old.cached) && not (names_blob row.blob self.old))
            (record self.old { cached = with_recorded (shown_entry (place, row)) self.old.cached }) self.old self.new) }
        ensures err { OnErr result (self.new ≡ self.old) }
    {
        if self.names_blob(row.blob) || file_at(&self.cached, &place).is_some() {
            return Ok(false);
        }
        self.blobs.insert(row.blob)?;
        add_file(&mut self.cached, place, row)?;
        Ok(true)
    }

    // The file at a place fades, where it is visible and a snapshot.
    pub(crate) fn fade(&mut self, place: &Place, moment: u64) -> bool
        ensures { Tried (is_snapshot_path (string_bytes place.now.1)
            && is_listed_row (recorded_at (string_bytes place.now.0) (string_bytes place.now.1) self.old.hosted))
            (record self.old { hosted = change_recorded (string_bytes place.now.0) (string_bytes place.now.1) (fade moment) self.old.hosted })
            self.old self.new result }
    {
        if !is_snapshot(place.1.as_str()) || phase_at(&self.hosted, place) != Some(true) {
            return false;
        }
        fade_file(&mut self.hosted, place, moment);
        true
    }

    // The file at a place is listed again, where it fades.
    pub(crate) fn relist(&mut self, place: &Place, accepted: u64) -> bool
        ensures { Tried (is_fading_row (recorded_at (string_bytes place.now.0) (string_bytes place.now.1) self.old.hosted))
            (record self.old { hosted = change_recorded (string_bytes place.now.0) (string_bytes place.now.1) (list_again accepted) self.old.hosted })
            self.old self.new result }
    {
        if phase_at(&self.hosted, place) != Some(false) {
            return false;
        }
        relist_file(&mut self.hosted, place, accepted);
        true
    }

    // The file at a place is taken away, where it fades.
    pub(crate) fn remove(&mut self, place: &Place) -> bool
        ensures { Tried (is_fading_row (recorded_at (string_bytes place.now.0) (string_bytes place.now.1) self.old.hosted))
            (record self.old { hosted = filter (λ r. not (is_recorded (string_bytes place.now.0) (string_bytes place.now.1) r)) self.old.hosted })
            self.old self.new result }
    {
        if phase_at(&self.hosted, place) != Some(false) {
            return false;
        }
        remove_file(&mut self.hosted, place);
        true
    }

    // The hosted repository's file at a place has these further digests.
    fn digest_hosted(&mut self, place: &Place, further: Further)
        ensures { self.new ≡ record self.old { hosted = change_recorded (string_bytes place.now.0) (string_bytes place.now.1) (digested further) self.old.hosted } }
    {
        digest_file(&mut self.hosted, place, further);
    }

    // The proxy's file at a place has these further digests.
    fn digest_cached(&mut self, place: &Place, further: Further)
        ensures { self.new ≡ record self.old { cached = change_recorded (string_bytes place.now.0) (string_bytes place.now.1) (digested further) self.old.cached } }
    {
        digest_file(&mut self.cached, place, further);
    }

    // The file at a place has these further digests, where it lacks them: a hosted repository's, else a proxy's.
    pub(crate) fn digest(&mut self, place: &Place, further: Further) -> bool
        ensures { Tried (lacks_at (string_bytes place.now.0) (string_bytes place.now.1) self.old.hosted
            || lacks_at (string_bytes place.now.0) (string_bytes place.now.1) self.old.cached)
            (with_digests (string_bytes place.now.0) (string_bytes place.now.1) further self.old) self.old self.new result }
    {
        if lacks_at(&self.hosted, place) {
            self.digest_hosted(place, further);
            return true;
        }
        if lacks_at(&self.cached, place) {
            self.digest_cached(place, further);
            return true;
        }
        false
    }

    // Keeps a document at a place.
    pub(crate) fn keep(&mut self, place: Place, kept: KeptDocument) -> Result<(), AllocError>
        ensures ok { OnOk result (self.new ≡ record self.old { documents = with_document (shown_document (place, kept)) self.old.documents }) }
        ensures err { OnErr result (self.new ≡ self.old) }
    {
        keep_document(&mut self.documents, place, kept)
    }

    // Opens a session, where its number is above all.
    pub(crate) fn open_session(&mut self, number: u64) -> Result<bool, AllocError>
        ensures ok { IfOk result (Tried (list_all (λ (s : RecordedSession). nat_lt s.number number) self.old.sessions)
            (record self.old { sessions = self.old.sessions ++ record { number = number; result = None } ∷ [] }) self.old self.new) }
        ensures err { OnErr result (self.new ≡ self.old) }
    {
        if !is_next(&self.sessions, number) {
            return Ok(false);
        }
        self.sessions.push(SessionRow {
            number,
            result: None,
        })?;
        Ok(true)
    }

    // Ends a session, where it is open.
    pub(crate) fn end_session(&mut self, number: u64, how: SessionResult) -> bool
        ensures { Tried (is_open_session (find (is_session number) self.old.sessions))
            (record self.old { sessions = change_where (is_session number) (λ s. record s { result = Some how }) self.old.sessions })
            self.old self.new result }
    {
        end_in(&mut self.sessions, number, how)
    }
}
