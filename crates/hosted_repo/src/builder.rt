//! A hosted repository that is being taken up from what is recorded.
ghost use Rattle.std.specs.Prelude.{◌≡◌, ◌≤◌, None, IfErr, IfOk, IsTrue, OnErr, OnOk};
ghost use Rattle.mvn_coords.specs.Layout.{Directory, text_of_directory};
ghost use Rattle.mvn_coords.specs.Path.{IsDirectory};
ghost use Rattle.repo_model.specs.Data.{Blob};
ghost use Rattle.repo_model.specs.Effect.{with_row};
ghost use Rattle.repo_model.specs.History.{latest_moment};
ghost use Rattle.repo_model.specs.Shown.{shown_parcel};
ghost use Rattle.repo_model.specs.State.{is_repository, new_hosted, row_at};
ghost use Rattle.row_tables.specs.Items.{is_file_path, is_id};
ghost use Rattle.directory_rows.specs.Documents.{added};
ghost use Rattle.directory_rows.specs.Rules.{shown_rule};
ghost use Rattle.ordered_rows.specs.Rows.{shown_at};
ghost use Rattle.kept_docs.specs.Drafted.{AreDrafted, drafted};
ghost use Rattle.repo_model.specs.Paths.{FadesRightly};
ghost use Rattle.hosted_repo.specs.Restored.{kept_row};

use crate::hosted::Hosted;
use directory_rows::Rule;
use kept_docs::{Docs, Drafts, prepared};
use ordered_rows::{CountedRows, Phase, Row};
use outside::{Held, NoMemory, Parcel};
use std::alloc::Global;
use std::marker::Model;

// Adds a row to the documents of its directories, where it is visible.
fn draft_row(
    alloc: Global,
    docs: &Docs,
    drafts: &mut Drafts,
    path: &str,
    accepted: u64,
    phase: Phase,
) -> Result<(), NoMemory>
    requires { accepted ≤ latest_moment }
    ensures { OnOk result ((d : Directory) (blob : Blob) → IsDirectory d → drafted (text_of_directory d) docs.now drafts.new
        ≡ added d (drafted (text_of_directory d) docs.now drafts.old) (kept_row path.now blob accepted phase)) }
{
    match phase {
        Phase::Listed => drafts.add(alloc, docs, path, accepted),
        Phase::Fading(_) => Ok(()),
    }
}

// Adds a row at a path that has none, and what it makes of documents. When memory runs out its parcel comes back.
fn add_row<H: Held>(
    alloc: Global,
    rows: &mut CountedRows<H>,
    docs: &Docs,
    drafts: &mut Drafts,
    path: &str,
    row: Row<H>,
) -> Result<(), Parcel<H>>
    requires free { row_at path.now rows.old ≡ None }
    requires drafted { AreDrafted docs.now drafts.old rows.old }
    ensures ok { OnOk result (rows.new ≡ with_row (shown_at path.now row) rows.old) }
    ensures drafted { OnOk result (AreDrafted docs.now drafts.new rows.new) }
    ensures back { IfErr result (λ parcel. parcel ≡ row.parcel) }
{
    if let Err(_) = draft_row(alloc, docs, drafts, path, row.accepted, row.phase) {
        return Err(row.parcel);
    }
    rows.add(alloc, path, row)
}

/// A hosted repository that is being taken up from what is recorded: its rows so far, and their documents, which are not written yet.
#[derive(Drop)]
pub struct HostedBuilder<H: Held> {
    alloc: Global,
    rule: Rule,
    rows: CountedRows<H>,
    docs: Docs,
    drafts: Drafts,
}

impl<H: Held> Model for HostedBuilder<H> {
    ghost use Rattle.std.specs.Prelude.{IsTrue};
    ghost use Rattle.repo_model.specs.Data as plain;

    ghost Value = { plain.Hosted };

    ghost use Rattle.directory_rows.specs.Rules.{shown_rule};

    ghost view = { λ b. record { rule = shown_rule b.rule; rows = b.rows } };

    ghost use Rattle.hosted_repo.specs.Releases.{AllFadeRightly};
    ghost use Rattle.ordered_rows.specs.Rows.{AreFiles};
    ghost use Rattle.row_tables.specs.Items.{is_id};
    ghost use Rattle.kept_docs.specs.Drafted.{AreDrafted};

    ghost invariant = { λ b. record {
      named : IsTrue (is_id b.rule.id);
      files : AreFiles b.rows;
      fading : AllFadeRightly b.rows;
      drafted : AreDrafted b.docs b.drafts b.rows;
    } };
}

impl<H: Held> HostedBuilder<H> {
    /// A repository without rows. Its id has 1 to 64 bytes of a-z, 0-9 and -.
    pub fn new(alloc: Global, rule: Rule) -> HostedBuilder<H>
        requires { IsTrue (is_id rule.id) }
        ensures { result ≡ new_hosted (shown_rule rule) }
    {
        let rows = CountedRows::new(alloc);
        let docs = Docs::new(alloc);
        let drafts = Drafts::new(alloc);
        HostedBuilder {
            alloc,
            rule,
            rows,
            docs,
            drafts,
        }
    }

    /// Whether this is its id.
    pub fn has_id(&self, id: &str) -> bool
        ensures { result ≡ is_repository id.now self.now }
    {
        self.rule.id.as_str() == id
    }

    /// Takes up a row that is recorded, as it was kept. Only a snapshot's is unlisted. Nothing is recorded anew. When memory runs out
    /// the parcel comes back, and all rows are let go.
    pub fn restore(
        &mut self,
        path: &str,
        parcel: Parcel<H>,
        accepted: u64,
        phase: Phase,
    ) -> Result<(), Parcel<H>>
        requires path { IsTrue (is_file_path path.now) }
        requires free { row_at path.now self.old.rows ≡ None }
        requires moment { accepted ≤ latest_moment }
        requires fading { FadesRightly (kept_row path.now (shown_parcel parcel) accepted phase) }
        ensures ok { OnOk result (self.new ≡ record self.old { rows = with_row (kept_row path.now (shown_parcel parcel) accepted phase) self.old.rows }) }
        ensures err { OnErr result (self.new ≡ new_hosted self.old.rule) }
        ensures back { IfErr result (λ back. back ≡ parcel) }
    {
        let row = Row {
            parcel,
            accepted,
            phase,
        };
        match add_row(
            self.alloc,
            &mut self.rows,
            &self.docs,
            &mut self.drafts,
            path,
            row,
        ) {
            Ok(()) => Ok(()),
            Err(parcel) => {
                let rows = CountedRows::new(self.alloc);
                let docs = Docs::new(self.alloc);
                let drafts = Drafts::new(self.alloc);
                self.rows = rows;
                self.docs = docs;
                self.drafts = drafts;
                Err(parcel)
            }
        }
    }

    /// The repository with all its documents, each written once.
    pub fn build(self) -> Result<Hosted<H>, NoMemory>
        ensures { IfOk result (λ repo. repo ≡ self) }
    {
        let HostedBuilder {
            alloc,
            rule,
            rows,
            mut docs,
            drafts,
        } = self;
        let pages = prepared(alloc, &mut docs, drafts)?;
        docs.place(pages);
        Ok(Hosted::of_parts(alloc, rule, rows, docs))
    }
}
