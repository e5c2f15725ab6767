//! The numbers of blobs, of leases and of sessions.
ghost use Rattle.std.specs.Prelude.{◌≡◌, ℕ, ◌+◌, ◌^◌, ◌<◌, ◌≤◌, ◌==◌, ◌↔◌, false, length, ◌++◌, ◌∷◌, [], if◌then◌else◌, filter, not, unwrap_or, count_by, nat_eq, All, IfOk, OnOk, OnErr, IsTrue, vec_len, vec_capacity};
ghost use Rattle.std.specs.List.{list_any};
ghost use Rattle.std.specs.Map.{lookup, values_of};
ghost use Rattle.std.specs.Option.{option_map};
ghost use Rattle.repo_model.specs.Effect.{draws, drops, lends, returns, forgets, opens, with_number, without_number, without_draft, condemning, yard_after};
ghost use Rattle.repo_model.specs.State.{Lease, is_among, number_end};
ghost use Rattle.repo_model.specs.Turn.{unlent};
ghost use Rattle.blob_yard.specs.Places.{AreBelow};

use crate::places::{self, Places, Stand};
use outside::NoMemory;
use repo_model::NUMBER_END;
use std::alloc::Global;
use std::collections::BTreeMap;
use std::marker::Model;

/// Why no number was drawn.
#[derive(Clone, Copy, Debug, PartialEq, Eq)]
pub enum DrawFault {
    /// The next one is 2^63.
    Spent,
    /// There was no memory left.
    NoMemory,
}

/// Numbers of blobs (drawn and not yet used, in use, garbage), of their leases, and of sessions.
///
/// Each blob number has one place, which is made when it is drawn, so keeping it, giving it up and giving a lease back take
/// no memory. All but `collect` take steps by the logarithm of the numbers. How many numbers are garbage without a lease is
/// counted: where there are none, `collect` looks at no number, and else at those up to the last that it gives.
#[derive(Drop)]
pub struct Yard {
    places: Places,
    leases: BTreeMap<u64, u64>,
    next_draft: u64,
    next_lease: u64,
    next_session: u64,
}

impl Model for Yard {
    ghost use Rattle.blob_yard.specs.Numbers.{Numbers};

    ghost Value = { Numbers };

    ghost use Rattle.blob_yard.specs.Shown.{shown_numbers, IsTight};

    ghost view = { shown_numbers };

    ghost invariant = { IsTight };
}

impl Yard {
    /// The numbers of a repository that begins with some blobs in use: their numbers, below `next`, and the next numbers of
    /// drafts and sessions, at most 2^63.
    pub fn start(
        alloc: Global,
        named: &[u64],
        next: u64,
        next_session: u64,
    ) -> Result<Yard, NoMemory>
        requires named { All (λ n. n < next) named.now }
        requires next { next ≤ number_end }
        requires session { next_session ≤ number_end }
        ensures yard { IfOk result (λ y. y.yard ≡ record { drafts = []; leases = []; condemned = []; next_draft = next; next_lease = 1; next_session = next_session }) }
        ensures kept { (n : ℕ) → IfOk result (λ y. is_among n y.kept ≡ is_among n named.now) }
    {
        Ok(Yard {
            places: places::keep_all(alloc, named, next)?,
            leases: BTreeMap::new(alloc),
            next_draft: next,
            next_lease: 1,
            next_session,
        })
    }

    /// Draws the next draft. At 2^63 it is Spent.
    pub fn draft(&mut self) -> Result<u64, DrawFault>
        ensures spent { (result ≡ Err DrawFault.Spent) ↔ (self.old.yard.next_draft ≡ number_end) }
        ensures number { IfOk result (λ n. n ≡ self.old.yard.next_draft) }
        ensures drawn { OnOk result (self.new ≡ record self.old { yard = yard_after draws self.old.yard }) }
        ensures err { OnErr result (self.new ≡ self.old) }
    {
        let number = self.next_draft;
        if number == NUMBER_END {
            return Err(DrawFault::Spent);
        }
        match places::add(&mut self.places, number) {
            Ok(()) => {
                self.next_draft = number + 1;
                Ok(number)
            }
            Err(_) => Err(DrawFault::NoMemory),
        }
    }

    /// Whether the number is drawn and not yet used.
    pub fn is_draft(&self, number: u64) -> bool
        ensures { result ≡ is_among number self.now.yard.drafts }
    {
        places::is_draft(&self.places, number)
    }

    /// Whether a number is that of a blob in use.
    pub fn is_kept(&self, number: u64) -> bool
        ensures { result ≡ is_among number self.now.kept }
    {
        places::is_kept(&self.places, number)
    }

    /// A draft comes into use. What is no draft changes nothing.
    pub fn keep(&mut self, draft: u64) -> bool
        ensures draft { result ≡ is_among draft self.old.yard.drafts }
        ensures kept { self.new ≡ (if result
            then record { yard = without_draft draft self.old.yard; kept = with_number draft self.old.kept }
            else self.old) }
    {
        if !self.is_draft(draft) {
            return false;
        }
        places::set_stand(&mut self.places, draft, Stand::Kept);
        true
    }

    /// A draft becomes garbage. What is no draft changes nothing.
    pub fn drop_draft(&mut self, draft: u64) -> bool
        ensures draft { result ≡ is_among draft self.old.yard.drafts }
        ensures dropped { self.new ≡ (if result
            then record self.old { yard = yard_after (drops draft) self.old.yard }
            else self.old) }
    {
        if !self.is_draft(draft) {
            return false;
        }
        places::set_stand(&mut self.places, draft, Stand::Condemned);
        true
    }

    /// A number in use becomes garbage.
    pub fn condemn(&mut self, number: u64)
        requires { IsTrue (is_among number self.old.kept) }
        ensures { self.new ≡ record { yard = condemning number self.old.yard; kept = without_number number self.old.kept } }
    {
        places::set_stand(&mut self.places, number, Stand::Condemned);
    }

    /// Draws the next lease, of a blob that is in use. At 2^63 it is Spent.
    pub fn lease(&mut self, blob: u64) -> Result<u64, DrawFault>
        requires { IsTrue (is_among blob self.old.kept) }
        ensures spent { (result ≡ Err DrawFault.Spent) ↔ (self.old.yard.next_lease ≡ number_end) }
        ensures number { IfOk result (λ n. n ≡ self.old.yard.next_lease) }
        ensures lent { OnOk result (self.new ≡ record self.old { yard = yard_after (lends blob) self.old.yard }) }
        ensures err { OnErr result (self.new ≡ self.old) }
    {
        let number = self.next_lease;
        if number == NUMBER_END {
            return Err(DrawFault::Spent);
        }
        match add_lease(&mut self.leases, number, blob) {
            Ok(()) => {
                places::lend(&mut self.places, blob);
                self.next_lease = number + 1;
                Ok(number)
            }
            Err(_) => Err(DrawFault::NoMemory),
        }
    }

    /// Gives a lease back. What is no lease changes nothing.
    pub fn done(&mut self, lease: u64) -> bool
        ensures lease { result ≡ list_any (λ (l : Lease). l.number == lease) self.old.yard.leases }
        ensures returned { self.new ≡ record self.old { yard = yard_after (returns lease) self.old.yard } }
    {
        match drop_lease(&mut self.leases, lease) {
            Some(blob) => {
                places::give_back(&mut self.places, blob);
                true
            }
            None => false,
        }
    }

    /// Adds the first 100 garbage numbers without a lease, rising, and forgets them. There must be room for 100.
    pub fn collect(&mut self, out: &mut Vec<u64>)
        requires { vec_len out.old + 100 ≤ vec_capacity out.old }
        ensures out { out.new.items ≡ out.old.items ++ unlent self.old.yard }
        ensures forgotten { self.new ≡ record self.old { yard = yard_after (forgets (unlent self.old.yard)) self.old.yard } }
    {
        let from = out.len();
        places::push_garbage(&self.places, out);
        places::take_out(&mut self.places, &out[from..]);
    }

    /// The next session's number, unless it is 2^63.
    pub fn next_session(&self) -> Option<u64>
        ensures { result ≡ (if self.now.yard.next_session == number_end then None else Some self.now.yard.next_session) }
    {
        if self.next_session == NUMBER_END {
            None
        } else {
            Some(self.next_session)
        }
    }

    /// Draws the next session's number, which is below 2^63.
    pub fn draw_session(&mut self)
        requires { (self.old.yard.next_session == number_end) ≡ false }
        ensures { (repo : _) → self.new ≡ record self.old { yard = yard_after (opens self.old.yard.next_session repo) self.old.yard } }
    {
        self.next_session += 1;
    }
}

// One more lease, whose number is greater than all.
fn add_lease(leases: &mut BTreeMap<u64, u64>, number: u64, blob: u64) -> Result<(), NoMemory>
    requires { AreBelow number leases.old.entries }
    ensures ok { OnOk result (leases.new.entries ≡ leases.old.entries ++ (number, blob) ∷ []) }
    ensures err { OnErr result (leases.new.entries ≡ leases.old.entries) }
    ensures few { length leases.old.entries < 2 ^ 63 }
{
    let _few = leases.len();
    leases.insert(number, blob)?;
    Ok(())
}

// A lease less, and its blob, if there is one of that number.
fn drop_lease(leases: &mut BTreeMap<u64, u64>, number: u64) -> Option<u64>
    ensures blob { result ≡ lookup (nat_eq number) leases.old.entries }
    ensures rest { leases.new.entries ≡ filter (λ e. not (e.0 == number)) leases.old.entries }
    ensures count { (n : ℕ) → count_by (λ b. b == n) (values_of leases.new.entries)
        + unwrap_or (option_map (λ b. if b == n then 1 else 0) result) 0 ≡ count_by (λ b. b == n) (values_of leases.old.entries) }
{
    // Its contract says that the keys rise.
    let _len = leases.len();
    leases.remove(&number)
}
