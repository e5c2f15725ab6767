//! Where each blob number stands, how often it is lent, and how many are garbage.
ghost use Rattle.std.specs.Prelude.{◌≡◌, ℕ, ◌+◌, ◌-◌, ◌^◌, ◌<◌, ◌≤◌, ◌++◌, ◌∷◌, [], take, false, nat_eq, if◌then◌else◌, All, OnOk, OnErr, IfOk, vec_len, vec_capacity};
ghost use Rattle.std.specs.Map.{keys_of, lookup, remove_entry};
ghost use Rattle.std.specs.Option.{option_map_or};
ghost use Rattle.blob_yard.specs.declared.places.Place.{Place};
ghost use Rattle.blob_yard.specs.declared.places.Stand.TheVariants.{Draft};
ghost use Rattle.repo_model.specs.State.{is_among};
ghost use Rattle.blob_yard.specs.Places.{AreBelow, AreKept, AreRising, changed, leases_at, is_condemned, is_draft, is_garbage, is_kept, garbage_of, without};

use outside::NoMemory;
use std::alloc::Global;
use std::collections::BTreeMap;
use std::marker::Model;

/// Where a blob number stands.
#[derive(Clone, Copy, Debug)]
pub enum Stand {
    /// It is drawn and not yet used.
    Draft,
    /// It is the blob of a row or of a staged file.
    Kept,
    /// It is garbage.
    Condemned,
}

impl Stand {
    fn is_draft(self) -> bool
        ensures { result ≡ is_draft self }
    {
        matches!(self, Stand::Draft)
    }

    fn is_kept(self) -> bool
        ensures { result ≡ is_kept self }
    {
        matches!(self, Stand::Kept)
    }

    fn is_condemned(self) -> bool
        ensures { result ≡ is_condemned self }
    {
        matches!(self, Stand::Condemned)
    }
}

/// What is known of a blob number: where it stands, and how many leases it has.
#[derive(Clone, Copy, Debug)]
pub struct Place {
    pub stand: Stand,
    pub leases: u64,
}

/// Blob numbers and their places, in rising order, and the count of those that are garbage which nobody has borrowed.
#[derive(Drop)]
pub struct Places {
    map: BTreeMap<u64, Place>,
    garbage: u64,
}

impl Model for Places {
    ghost use Rattle.std.specs.Prelude.{ℕ, List};
    ghost use Rattle.blob_yard.specs.declared.places.Place.{Place};

    ghost Value = { List (ℕ × Place) };

    ghost view = { λ p. p.map.entries };

    ghost use Rattle.std.specs.Prelude.{◌≡◌, length};
    ghost use Rattle.blob_yard.specs.Places.{garbage_of};

    ghost invariant = { λ p. p.garbage ≡ length (garbage_of p.map.entries) };
}

/// A number without leases.
pub fn unlent(stand: Stand) -> Place
    ensures { result ≡ record { stand = stand; leases = 0 } }
{
    Place { stand, leases: 0 }
}

/// Whether a number is garbage that nobody has borrowed.
fn is_garbage(place: Place) -> bool
    ensures { result ≡ is_garbage place }
{
    place.stand.is_condemned() && place.leases == 0
}

// How much a place adds to the count.
fn weight(place: Place) -> u64
    ensures { result ≡ (if is_garbage place then 1 else 0) }
{
    if is_garbage(place) { 1 } else { 0 }
}

/// Whether a number is a draft.
pub fn is_draft(places: &Places, number: u64) -> bool
    ensures value { result ≡ option_map_or (λ (p : Place). is_draft p.stand) (lookup (nat_eq number) places.now) false }
    ensures rising { AreRising places.now }
{
    // Its contract says that the keys rise.
    let _len = places.map.len();
    match places.map.get(&number) {
        Some(place) => place.stand.is_draft(),
        None => false,
    }
}

/// Whether a number is in use.
pub fn is_kept(places: &Places, number: u64) -> bool
    ensures value { result ≡ option_map_or (λ (p : Place). is_kept p.stand) (lookup (nat_eq number) places.now) false }
    ensures rising { AreRising places.now }
{
    // Its contract says that the keys rise.
    let _len = places.map.len();
    match places.map.get(&number) {
        Some(place) => place.stand.is_kept(),
        None => false,
    }
}

/// Adds a draft that is greater than all.
pub fn add(places: &mut Places, number: u64) -> Result<(), NoMemory>
    requires { AreBelow number places.old }
    ensures ok { OnOk result (places.new ≡ places.old ++ (number, record { stand = Draft; leases = 0 }) ∷ []) }
    ensures err { OnErr result (places.new ≡ places.old) }
{
    places.map.insert(number, unlent(Stand::Draft))?;
    Ok(())
}

/// Blob numbers that are in use, of which each is below `next`.
pub fn keep_all(alloc: Global, numbers: &[u64], next: u64) -> Result<Places, NoMemory>
    requires { All (λ n. n < next) numbers.now }
    ensures below { IfOk result (λ places. AreBelow next places) }
    ensures kept { IfOk result (λ places. AreKept places) }
    ensures numbers { (n : ℕ)
        → IfOk result (λ places. is_among n (keys_of places) ≡ is_among n numbers.now) }
{
    let mut map = BTreeMap::new(alloc);
    for number in numbers {
        map.insert(*number, unlent(Stand::Kept))?;
    }
    Ok(Places { map, garbage: 0 })
}

/// Lets a number stand elsewhere.
pub fn set_stand(places: &mut Places, number: u64, stand: Stand)
    ensures changed { places.new ≡ changed number (λ p. record p { stand = stand }) places.old }
    ensures rising { AreRising places.old }
{
    // No more numbers are garbage than the map has.
    let _len = places.map.len();
    if let Some(place) = places.map.get_mut(&number) {
        places.garbage -= weight(*place);
        place.stand = stand;
        places.garbage += weight(*place);
    }
}

/// One more lease of a number.
pub fn lend(places: &mut Places, number: u64)
    requires { leases_at number places.old < 2 ^ 63 }
    ensures rising { AreRising places.old }
    ensures changed { places.new ≡ changed number (λ p. record p { leases = p.leases + 1 }) places.old }
{
    if let Some(place) = places.map.get_mut(&number) {
        places.garbage -= weight(*place);
        place.leases += 1;
    }
}

/// One lease of a number less.
pub fn give_back(places: &mut Places, number: u64)
    ensures { places.new ≡ changed number (λ p. record p { leases = p.leases - 1 }) places.old }
{
    // No more numbers are garbage than the map has.
    let _len = places.map.len();
    if let Some(place) = places.map.get_mut(&number) {
        places.garbage -= weight(*place);
        place.leases = place.leases.saturating_sub(1);
        places.garbage += weight(*place);
    }
}

/// Adds the first garbage that nobody has borrowed, as far as there is room for 100 numbers. It looks at no place after the
/// last garbage that it adds, and at none where there is no garbage.
pub fn push_garbage(places: &Places, out: &mut Vec<u64>)
    requires { vec_len out.old + 100 ≤ vec_capacity out.old }
    ensures out { out.new.items ≡ out.old.items ++ take 100 (garbage_of places.now) }
    ensures rising { AreRising places.now }
{
    push_first(&places.map, places.garbage.min(100) as usize, out);
}

// Adds so much of the first garbage.
fn push_first(places: &BTreeMap<u64, Place>, most: usize, out: &mut Vec<u64>)
    requires { vec_len out.old + most ≤ vec_capacity out.old }
    ensures out { out.new.items ≡ out.old.items ++ take most (garbage_of places.now.entries) }
    ensures rising { AreRising places.now.entries }
{
    let end = out.len() + most;
    for (number, place) in places {
        if out.len() == end {
            return;
        }
        if is_garbage(*place) {
            // There is room for it.
            let _ = out.push(*number);
        }
    }
}

/// Takes the places of some numbers away.
pub fn take_out(places: &mut Places, numbers: &[u64])
    requires { AreRising places.old }
    ensures { places.new ≡ without numbers.now places.old }
{
    for number in numbers {
        remove(places, *number);
    }
}

// Takes the place of a number away.
fn remove(places: &mut Places, number: u64)
    ensures { places.new ≡ remove_entry (nat_eq number) places.old }
{
    if let Some(place) = places.map.remove(&number) {
        places.garbage -= weight(place);
    }
}
