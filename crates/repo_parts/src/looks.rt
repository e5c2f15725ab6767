//! Looks: the blob of a file is lent; the text of a side file and a document are given; or a remote is to be asked first.
ghost use Rattle.std.specs.Prelude.{◌≡◌, IfOk, IsTrue};
ghost use Rattle.proxy_rules.specs.Rules.{shown_rule};
ghost use Rattle.repo_model.specs.Shown.{shown_parcel, shown_reply};
ghost use Rattle.repo_model.specs.State.{State, is_among};
ghost use Rattle.repo_model.specs.Turn.{shows, is_file, look_at};
ghost use Rattle.repo_parts.specs.Hosted.{AreInUse};
ghost use Rattle.repo_parts.specs.Looks.{HasGoods, IsDueOr, IsLendable, shown_looked};
ghost use Rattle.repo_parts.specs.Numbers.{yard_looked};
ghost use Rattle.repo_parts.specs.Proxies.{AreCachedInUse};
ghost use Rattle.repo_parts.specs.Shelves.{AreShelved};

use crate::conditions::group_place;
use crate::groups::seen_in_group;
use crate::hosted::repo_at;
use crate::looked::{Asked, Goods, Looked};
use crate::members::{seen_by_member, seen_by_repo};
use crate::plans::plan_fetch;
use blob_yard::{DrawFault, Yard};
use group_view::GroupShelf;
use hosted_repo::Seen;
use outside::{Held, NoMemory, Parcel};
use repo_config::Settings;
use repo_model::Reply;
use std::alloc::Global;

// What the repository of an id has at a path: a hosted one, a group, or a proxy.
fn look_at<'a, H: Held>(
    alloc: Global,
    settings: &Settings,
    goods: &Goods<'a, H>,
    shelves: &mut Vec<GroupShelf>,
    id: &str,
    asked: &Asked<'a>,
) -> Result<Looked<'a, H>, NoMemory>
    requires shelved { AreShelved settings.now.groups goods.now.repos.now goods.now.proxies.now shelves.old.items }
    ensures seen { (s : State) → HasGoods s goods.now.repos.now goods.now.proxies.now → IfOk result (λ l. shown_looked l
        ≡ look_at settings.now s asked.now.moment id.now asked.now.tried.now asked.now.path.now) }
    ensures shelved { AreShelved settings.now.groups goods.now.repos.now goods.now.proxies.now shelves.new.items }
{
    if let Some(repo) = repo_at(goods.repos, id) {
        return seen_by_repo(repo, asked.path);
    }
    match group_place(settings, id) {
        Some(place) => seen_in_group(
            alloc,
            goods,
            &mut shelves[place],
            settings.groups()[place].members(),
            asked,
        ),
        None => seen_by_member(alloc, goods, 0, id, asked),
    }
}

/// What is at a path of the repository of an id. The blob of a file is lent, what is to be fetched of a remote is planned, and a
/// document of a group that is made is put on its shelf.
pub fn look<H: Held>(
    alloc: Global,
    settings: &Settings,
    goods: &Goods<'_, H>,
    shelves: &mut Vec<GroupShelf>,
    yard: &mut Yard,
    id: &str,
    asked: &Asked<'_>,
) -> Reply<H>
    requires shelved { AreShelved settings.now.groups goods.now.repos.now goods.now.proxies.now shelves.old.items }
    requires used { AreInUse yard.old.kept goods.now.repos.now }
    requires cached { AreCachedInUse yard.old.kept goods.now.proxies.now }
    ensures reply { (s : State) → HasGoods s goods.now.repos.now goods.now.proxies.now → IsDueOr
        (shows settings.now yard.old.yard (look_at settings.now s asked.now.moment id.now asked.now.tried.now asked.now.path.now)).reply
        (shown_reply result) }
    ensures yard { yard.new ≡ record yard.old { yard = yard_looked (shown_reply result) yard.old.yard } }
    ensures shelved { AreShelved settings.now.groups goods.now.repos.now goods.now.proxies.now shelves.new.items }
{
    match look_at(alloc, settings, goods, shelves, id, asked) {
        Ok(looked) => answer(alloc, settings, yard, looked),
        Err(_) => Reply::NoMemory,
    }
}

// The answer where this is at a path.
fn answer<H: Held>(
    alloc: Global,
    settings: &Settings,
    yard: &mut Yard,
    looked: Looked<'_, H>,
) -> Reply<H>
    requires { IsLendable yard.old.kept (shown_looked looked) }
    ensures reply { IsDueOr (shows settings.now yard.old.yard (shown_looked looked.entry)).reply (shown_reply result) }
    ensures yard { yard.new ≡ record yard.old { yard = yard_looked (shown_reply result) yard.old.yard } }
{
    match looked {
        Looked::Here(Seen::File(parcel)) => lend(settings, yard, parcel),
        Looked::Here(Seen::Text(text)) => Reply::Text(text),
        Looked::Here(Seen::Doc(doc)) => Reply::Doc {
            text: doc.text,
            digests: doc.digests,
        },
        Looked::Nothing => Reply::Missed,
        Looked::Fetch {
            member,
            rule,
            path,
            of_file,
        } => plan_fetch(alloc, settings, yard, member, rule, path, of_file),
        Looked::Blocked => Reply::Blocked,
        Looked::Negative => Reply::Negative,
        Looked::Never => Reply::Never,
    }
}

// The answer where a file is there: its blob, lent.
fn lend<H: Held>(settings: &Settings, yard: &mut Yard, parcel: &Parcel<H>) -> Reply<H>
    requires { IsTrue (is_among parcel.now.blob yard.old.kept) }
    ensures reply { IsDueOr (shows settings.now yard.old.yard (is_file (shown_parcel parcel.now))).reply (shown_reply result) }
    ensures yard { yard.new ≡ record yard.old { yard = yard_looked (shown_reply result) yard.old.yard } }
{
    let Ok(parcel) = parcel.share() else {
        return Reply::NoMemory;
    };
    match yard.lease(parcel.blob) {
        Ok(lease) => Reply::File { lease, parcel },
        Err(DrawFault::Spent) => Reply::Spent,
        Err(DrawFault::NoMemory) => Reply::NoMemory,
    }
}
