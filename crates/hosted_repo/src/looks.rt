//! Looks at the rows of a repository, and at the documents that are kept of them.
ghost use Rattle.std.specs.Prelude.{◌≡◌, IfOk, OnErr, true};
ghost use Rattle.mvn_coords.specs.Kind.{kind};
ghost use Rattle.mvn_metadata.specs.Written as form;
ghost use Rattle.repo_model.specs.Turn.{seen_at};
ghost use Rattle.kept_docs.specs.Kept.{AreOf};
ghost use Rattle.hosted_repo.specs.Seens.{shown_seen, is_of_document};

use crate::seen::{DocText, Seen};
use kept_docs::Docs;
use mvn_coords::{Kind, kind_of};
use mvn_digest::side_text;
use ordered_rows::{CountedRows, find};
use outside::{Held, NoMemory};
use written_docs::WrittenDoc;

/// A share of a document's text, with its digests.
fn share_of(kept: &WrittenDoc) -> Result<DocText, NoMemory>
    ensures { IfOk result (λ shown. shown.text ≡ form.text kept.now.doc) }
{
    Ok(DocText {
        text: kept.text.share()?,
        digests: kept.digests,
    })
}

/// What the rows have at a path. Of a document a share is given; it fails only where its text has too many to count.
pub fn look_at<'a, H: Held>(
    rows: &'a CountedRows<H>,
    docs: &Docs,
    path: &str,
) -> Result<Option<Seen<'a, H>>, NoMemory>
    requires { AreOf docs.now rows.now }
    ensures seen { IfOk result (λ s. shown_seen s ≡ seen_at rows.now path.now (kind path.now)) }
    ensures room { OnErr result (is_of_document (kind path.now) ≡ true) }
{
    match kind_of(path) {
        Ok(Kind::File(_)) => match find(rows.map(), path) {
            Some(row) => Ok(Some(Seen::File(&row.parcel))),
            None => Ok(None),
        },
        Ok(Kind::FileSide(c, side)) => match find(rows.map(), c.path()) {
            Some(row) => Ok(Some(Seen::Text(side_text(&row.parcel.digests, side)))),
            None => Ok(None),
        },
        Ok(Kind::Doc(dir)) => match docs.get(&dir) {
            Some(kept) => Ok(Some(Seen::Doc(share_of(kept)?))),
            None => Ok(None),
        },
        Ok(Kind::DocSide(dir, side)) => match docs.get(&dir) {
            Some(kept) => Ok(Some(Seen::Text(side_text(&kept.digests, side)))),
            None => Ok(None),
        },
        Err(_) => Ok(None),
    }
}
