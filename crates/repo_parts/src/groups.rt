//! What a group has at a path, and its shelf.
ghost use Rattle.std.specs.Prelude.{◌≡◌, ◌⊎◌, IfOk, IsSome, None, false, find, map, slice_get};
ghost use Rattle.std.specs.Option.{option_map};
ghost use Rattle.mvn_coords.specs.Kind.{kind};
ghost use Rattle.mvn_coords.specs.Layout.{text_of_directory};
ghost use Rattle.group_view.specs.Members.{next};
ghost use Rattle.group_view.specs.Shelved.{shelved_at};
ghost use Rattle.group_laws.specs.Seen.{stance_of};
ghost use Rattle.hosted_repo.specs.Seens.{is_of_document};
ghost use Rattle.repo_model.specs.Proxies.{subject_of};
ghost use Rattle.repo_model.specs.State.{State};
ghost use Rattle.repo_model.specs.Turn.{directory_of, document_shown, each_document, each_seen, fetches_one, group_seen, first_or, is_nothing, merged_of, or_nothing};
ghost use Rattle.repo_parts.specs.Looks.{HasGoods, document_kind, shown_looked};
ghost use Rattle.repo_parts.specs.Shelves.{IsShelved};

use crate::looked::{Asked, Goods, Looked};
use crate::members::{
    document_of_member, document_shown, is_of_document, seen_by_member, stance_of_member,
};
use group_view::{GroupShelf, Stance, Turn, merged, next};
use mvn_coords::{Dir, Kind, Side, kind_of};
use mvn_metadata::Doc;
use outside::{Held, NoMemory};
use std::alloc::Global;
use texts::Text;
use written_docs::{WrittenDoc, written};

// Whose turn it is among the members of a group.
fn turn_of<H: Held>(
    alloc: Global,
    goods: &Goods<'_, H>,
    members: &[Text],
    asked: &Asked<'_>,
) -> Result<Turn, NoMemory>
    ensures { (s : State) → HasGoods s goods.now.repos.now goods.now.proxies.now → IfOk result (λ turn. turn
        ≡ next (is_of_document (kind asked.now.path.now))
        (map stance_of (each_seen s asked.now.moment asked.now.tried.now asked.now.path.now (kind asked.now.path.now) 0 members.now))) }
{
    let mut stances: Vec<Stance> = Vec::with_capacity(alloc, members.len())?;
    for (member, id) in members.iter().enumerate() {
        stances.push(stance_of_member(goods, member as u64, id.as_str(), asked))?;
    }
    Ok(next(&stances, is_of_document(asked.path)))
}

// What the member at a place has; nothing where there is no such place.
fn seen_at_place<'a, H: Held>(
    alloc: Global,
    goods: &Goods<'a, H>,
    members: &[Text],
    place: usize,
    asked: &Asked<'a>,
) -> Result<Looked<'a, H>, NoMemory>
    ensures { (s : State) → HasGoods s goods.now.repos.now goods.now.proxies.now → IfOk result (λ l. shown_looked l
        ≡ first_or (slice_get (each_seen s asked.now.moment asked.now.tried.now asked.now.path.now (kind asked.now.path.now) 0 members.now) place) is_nothing) }
{
    match members.get(place) {
        Some(id) => seen_by_member(alloc, goods, place as u64, id.as_str(), asked),
        None => Ok(Looked::Nothing),
    }
}

// The documents of a directory that the members serve, in their order.
fn documents_of<H: Held>(
    alloc: Global,
    goods: &Goods<'_, H>,
    members: &[Text],
    asked: &Asked<'_>,
    dir: &Dir<'_>,
) -> Result<Vec<Doc>, NoMemory>
    ensures { (s : State) → HasGoods s goods.now.repos.now goods.now.proxies.now → IfOk result (λ docs. docs.items
        ≡ each_document s asked.now.moment asked.now.tried.now (subject_of asked.now.path.now (kind asked.now.path.now)) dir.now 0 members.now) }
{
    let mut docs = Vec::new(alloc);
    for (member, id) in members.iter().enumerate() {
        if let Some(doc) = document_of_member(
            alloc,
            goods,
            member as u64,
            id.as_str(),
            asked,
            dir,
        )? {
            docs.push(doc)?;
        }
    }
    Ok(docs)
}

// A file, or a side file of one, in a group: what the first member has that serves it or asks its remote.
fn file_in_group<'a, H: Held>(
    alloc: Global,
    goods: &Goods<'a, H>,
    members: &[Text],
    asked: &Asked<'a>,
) -> Result<Looked<'a, H>, NoMemory>
    requires { is_of_document (kind asked.now.path.now) ≡ false }
    ensures { (s : State) → HasGoods s goods.now.repos.now goods.now.proxies.now → IfOk result (λ l. shown_looked l
        ≡ group_seen s asked.now.moment asked.now.tried.now asked.now.path.now (kind asked.now.path.now) members.now None) }
{
    match turn_of(alloc, goods, members, asked)? {
        Turn::Ask(place) | Turn::Serve(place) => {
            seen_at_place(alloc, goods, members, place, asked)
        }
        Turn::Nothing => Ok(Looked::Nothing),
    }
}

// The document of all members, written; none where no member serves one.
fn document_of_all<H: Held>(
    alloc: Global,
    goods: &Goods<'_, H>,
    members: &[Text],
    asked: &Asked<'_>,
    dir: &Dir<'_>,
) -> Result<Option<WrittenDoc>, NoMemory>
    ensures { (s : State) → HasGoods s goods.now.repos.now goods.now.proxies.now → IfOk result (λ w. option_map (λ one. one.doc) w
        ≡ merged_of s asked.now.moment asked.now.tried.now (subject_of asked.now.path.now (kind asked.now.path.now)) dir.now members.now) }
{
    let docs = documents_of(alloc, goods, members, asked, dir)?;
    match merged(alloc, &docs)? {
        Some(doc) => Ok(Some(written(alloc, doc)?)),
        None => Ok(None),
    }
}

// A document, or a side file of one, of all members, none of which asks its remote: that on the shelf, or it is put there.
fn document_on_shelf<'a, H: Held>(
    alloc: Global,
    goods: &Goods<'a, H>,
    shelf: &mut GroupShelf,
    members: &[Text],
    asked: &Asked<'a>,
    dir: &Dir<'_>,
    side: Option<Side>,
) -> Result<Looked<'a, H>, NoMemory>
    requires path { kind asked.now.path.now ≡ Ok (document_kind dir.now side) }
    requires quiet { (s : State) → HasGoods s goods.now.repos.now goods.now.proxies.now
        → find fetches_one (each_seen s asked.now.moment asked.now.tried.now asked.now.path.now (kind asked.now.path.now) 0 members.now) ≡ None }
    requires shelved { IsShelved goods.now.repos.now goods.now.proxies.now members.now shelf.old }
    ensures seen { (s : State) → HasGoods s goods.now.repos.now goods.now.proxies.now → IfOk result (λ l. shown_looked l
        ≡ or_nothing (document_shown (kind asked.now.path.now))
        (merged_of s asked.now.moment asked.now.tried.now (subject_of asked.now.path.now (kind asked.now.path.now)) dir.now members.now)) }
    ensures shelved { IsShelved goods.now.repos.now goods.now.proxies.now members.now shelf.new }
    ensures kept { IfOk result (λ l. (shown_looked l ≡ is_nothing) ⊎ IsSome (shelved_at (text_of_directory dir.now) shelf.new)) }
{
    if let Some(kept) = shelf.get(dir) {
        return Ok(Looked::Here(document_shown(kept, side)?));
    }
    let Some(written) = document_of_all(alloc, goods, members, asked, dir)? else {
        return Ok(Looked::Nothing);
    };
    let seen = document_shown(&written, side)?;
    shelf.keep(alloc, dir, written)?;
    Ok(Looked::Here(seen))
}

// A document, or a side file of one, in a group: the first member that asks its remote is to ask it; else all documents as one.
fn document_in_group<'a, H: Held>(
    alloc: Global,
    goods: &Goods<'a, H>,
    shelf: &mut GroupShelf,
    members: &[Text],
    asked: &Asked<'a>,
    dir: &Dir<'_>,
    side: Option<Side>,
) -> Result<Looked<'a, H>, NoMemory>
    requires path { kind asked.now.path.now ≡ Ok (document_kind dir.now side) }
    requires shelved { IsShelved goods.now.repos.now goods.now.proxies.now members.now shelf.old }
    ensures seen { (s : State) → HasGoods s goods.now.repos.now goods.now.proxies.now → IfOk result (λ l. shown_looked l
        ≡ group_seen s asked.now.moment asked.now.tried.now asked.now.path.now (kind asked.now.path.now) members.now (Some dir.now)) }
    ensures shelved { IsShelved goods.now.repos.now goods.now.proxies.now members.now shelf.new }
{
    if let Turn::Ask(place) = turn_of(alloc, goods, members, asked)? {
        return seen_at_place(alloc, goods, members, place, asked);
    }
    document_on_shelf(alloc, goods, shelf, members, asked, dir, side)
}

/// What a group of these members has at a path. A document that is made is put on the group's shelf.
pub fn seen_in_group<'a, H: Held>(
    alloc: Global,
    goods: &Goods<'a, H>,
    shelf: &mut GroupShelf,
    members: &[Text],
    asked: &Asked<'a>,
) -> Result<Looked<'a, H>, NoMemory>
    requires shelved { IsShelved goods.now.repos.now goods.now.proxies.now members.now shelf.old }
    ensures seen { (s : State) → HasGoods s goods.now.repos.now goods.now.proxies.now → IfOk result (λ l. shown_looked l
        ≡ group_seen s asked.now.moment asked.now.tried.now asked.now.path.now (kind asked.now.path.now) members.now (directory_of (kind asked.now.path.now))) }
    ensures shelved { IsShelved goods.now.repos.now goods.now.proxies.now members.now shelf.new }
{
    match kind_of(asked.path) {
        Ok(Kind::Doc(dir)) => document_in_group(alloc, goods, shelf, members, asked, &dir, None),
        Ok(Kind::DocSide(dir, side)) => {
            document_in_group(alloc, goods, shelf, members, asked, &dir, Some(side))
        }
        Ok(Kind::File(_) | Kind::FileSide(_, _)) | Err(_) => {
            file_in_group(alloc, goods, members, asked)
        }
    }
}
