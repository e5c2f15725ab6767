//! What is sent to a repository: files, and their side files.
ghost use Rattle.std.specs.Prelude.{◌≡◌, IsTrue};
ghost use Rattle.std.specs.Option.{option_map};
ghost use Rattle.mvn_coords.specs.Kind.{kind};
ghost use Rattle.mvn_digest.specs.Sides.{bytes_in};
ghost use Rattle.hosted_repo.specs.Puts.{shown_put};
ghost use Rattle.repo_model.specs.Shown.{shown_reply};
ghost use Rattle.repo_model.specs.State.{is_among, row_at};
ghost use Rattle.repo_model.specs.Turn.{judged};
ghost use Rattle.repo_parts.specs.Hosted.{rows_in};
ghost use Rattle.repo_parts.specs.Numbers.{yard_put, kept_put};

use crate::hosted::row_of;
use blob_yard::Yard;
use hosted_repo::{Hosted, Put, print_of};
use mvn_coords::{Kind, kind_of};
use mvn_digest::Digest;
use outside::Held;
use repo_model::Reply;

/// A put is over: what becomes of its draft.
pub fn settle_put<H: Held>(yard: &mut Yard, draft: u64, did: &Put<H>)
    requires { IsTrue (is_among draft yard.old.yard.drafts) }
    ensures { yard.new ≡ record {
      yard = yard_put draft (shown_put did.now) yard.old.yard;
      kept = kept_put draft (shown_put did.now) yard.old.kept;
    } }
{
    match did {
        Put::Created => {
            yard.keep(draft);
        }
        Put::StoreFault(_) | Put::NoMemory(_) => {}
        Put::Same(_) | Put::Relisted(_) | Put::Taken { .. } => {
            yard.drop_draft(draft);
        }
    }
}

/// What a put replies.
pub fn reply_of_put<H: Held>(did: Put<H>) -> Reply<H>
    ensures { shown_reply result ≡ shown_put did }
{
    match did {
        Put::Created => Reply::Created,
        Put::Same(_) => Reply::Same,
        Put::Relisted(_) => Reply::Relisted,
        Put::Taken { kept, sent } => Reply::Taken {
            kept,
            sent: print_of(&sent),
        },
        Put::StoreFault(_) => Reply::StoreFault,
        Put::NoMemory(_) => Reply::NoMemory,
    }
}

/// Compares the digest that a side file says with that of its file in the repository of an id. That of a document is always
/// agreed to, since documents are computed.
pub fn compare_side<H: Held>(repos: &[Hosted<H>], id: &str, path: &str, said: Digest) -> Reply<H>
    ensures { shown_reply result ≡ (judged (kind path.now) (bytes_in said)
        (λ at. option_map (λ row. row.blob) (row_at at (rows_in id.now repos.now)))).reply }
{
    let Ok(Kind::FileSide(c, side)) = kind_of(path) else {
        return Reply::Agreed;
    };
    let Some(row) = row_of(repos, id, c.path()) else {
        return Reply::NotThere;
    };
    let kept = row.parcel.digests.of(side);
    if said.bytes() == kept.bytes() {
        Reply::Agreed
    } else {
        Reply::Differs { said, kept }
    }
}
