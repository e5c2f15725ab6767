//! Rows in an ordered map, how many of them are unlisted, and the directories of their artifacts.
ghost use Rattle.std.specs.Prelude.{◌≡◌, ◌≤◌, [], false, None, OnErr, OnOk, IfErr, count_by, length, not, if◌then◌else◌};
ghost use Rattle.repo_model.specs.State.{row_at, change_where, is_row};
ghost use Rattle.repo_model.specs.Effect.{list_again, fade, with_row, without_row};
ghost use Rattle.repo_model.specs.Document.{is_listed};
ghost use Rattle.repo_model.specs.History.{latest_moment};
ghost use Rattle.ordered_rows.specs.Homes.{AreElsewhere};
ghost use Rattle.ordered_rows.specs.Rows.{fades, shown_at, shown_phase, shown_rows, without_first};

use crate::homes::{add_home, has_home};
use crate::row::{Phase, Row};
use crate::rows::is_before;
use outside::{Held, Parcel};
use std::alloc::Global;
use std::collections::{BTreeMap, BTreeSet};
use std::marker::Model;

/// Rows by path, in byte order, the count of those that are unlisted, and directories of artifacts, among them that of each
/// row.
#[derive(Drop)]
pub struct CountedRows<H: Held> {
    map: BTreeMap<String, Row<H>>,
    fading: u64,
    homes: BTreeSet<String>,
}

impl<H: Held> Model for CountedRows<H> {
    ghost use Rattle.std.specs.Prelude.{List};
    ghost use Rattle.repo_model.specs.Data as plain;

    ghost Value = { List plain.Row };

    ghost use Rattle.ordered_rows.specs.Rows.{shown_rows};

    ghost view = { λ r. shown_rows r.map.entries };

    ghost use Rattle.std.specs.Prelude.{◌≡◌, count_by};
    ghost use Rattle.ordered_rows.specs.Homes.{AreHomed};
    ghost use Rattle.ordered_rows.specs.Rows.{fades};

    ghost invariant = { λ r. record {
      counted : r.fading ≡ count_by fades (shown_rows r.map.entries);
      homed : AreHomed r.homes.keys (shown_rows r.map.entries);
    } };
}

// How much a row of this phase adds to the count.
fn weight(phase: Phase) -> u64
    ensures { result ≡ (if not (is_listed (shown_phase phase)) then 1 else 0) }
{
    match phase {
        Phase::Listed => 0,
        Phase::Fading(_) => 1,
    }
}

impl<H: Held> CountedRows<H> {
    /// No rows.
    pub fn new(alloc: Global) -> CountedRows<H>
        ensures { result ≡ [] }
    {
        CountedRows {
            map: BTreeMap::new(alloc),
            fading: 0,
            homes: BTreeSet::new(alloc),
        }
    }

    /// The rows alone.
    pub fn map(&self) -> &BTreeMap<String, Row<H>>
        ensures { shown_rows result.now.entries ≡ self.now }
    {
        &self.map
    }

    /// How many rows there are, and how many of them are unlisted.
    pub fn counts(&self) -> (u64, u64)
        ensures all { result.0 ≡ length self.now }
        ensures fading { result.1 ≡ count_by fades self.now }
    {
        (self.map.len() as u64, self.fading)
    }

    /// Whether the artifact of this directory may have rows.
    pub fn may_have(&self, home: &str) -> bool
        ensures { result ≡ false → AreElsewhere home.now self.now }
    {
        has_home(&self.homes, home)
    }

    /// Adds a row at a path that has none. When memory runs out its parcel comes back.
    pub fn add(&mut self, alloc: Global, path: &str, row: Row<H>) -> Result<(), Parcel<H>>
        requires { row_at path.now self.old ≡ None }
        ensures ok { OnOk result (self.new ≡ with_row (shown_at path.now row) self.old) }
        ensures err { OnErr result (self.new ≡ self.old) }
        ensures back { IfErr result (λ parcel. parcel ≡ row.parcel) }
    {
        let Ok(key) = String::from_str(alloc, path) else {
            return Err(row.parcel);
        };
        if let Err(_) = add_home(alloc, &mut self.homes, path) {
            return Err(row.parcel);
        }
        let more = weight(row.phase);
        match self.map.insert(key, row) {
            Ok(_) => {
                // No more rows fade than the map has.
                let _len = self.map.len();
                self.fading += more;
                Ok(())
            }
            Err(failed) => Err(failed.value.1.parcel),
        }
    }

    /// Takes the row at a path away.
    pub fn remove(&mut self, path: &str)
        ensures { self.new ≡ without_row path.now self.old }
    {
        // Its contract says that each path stands once.
        let _len = self.map.len();
        if let Some(row) = self.map.remove(path) {
            self.fading -= weight(row.phase);
        }
    }

    /// Lists the row at a path again, accepted at that moment.
    pub fn list_again(&mut self, path: &str, moment: u64)
        requires { moment ≤ latest_moment }
        ensures { self.new ≡ change_where (is_row path.now) (list_again moment) self.old }
    {
        if let Some(row) = self.map.get_mut(path) {
            self.fading -= weight(row.phase);
            row.accepted = moment;
            row.phase = Phase::Listed;
        }
    }

    /// Unlists the row at a path at a moment.
    pub fn fade(&mut self, path: &str, moment: u64)
        ensures { self.new ≡ change_where (is_row path.now) (fade moment) self.old }
    {
        // No more rows fade than the map has.
        let _len = self.map.len();
        if let Some(row) = self.map.get_mut(path) {
            self.fading -= weight(row.phase);
            self.fading += 1;
            row.phase = Phase::Fading(moment);
        }
    }

    /// Takes the first `count` rows away that are unlisted since before a moment. Where none fades no row is looked at.
    pub fn drop_first(&mut self, limit: u64, count: u64)
        ensures { self.new ≡ without_first count limit self.old }
    {
        if self.fading == 0 {
            return;
        }
        let before = self.map.len();
        retain_without(&mut self.map, limit, count);
        self.fading -= (before - self.map.len()) as u64;
    }
}

fn retain_without<H: Held>(rows: &mut BTreeMap<String, Row<H>>, limit: u64, count: u64)
    ensures { shown_rows rows.new.entries ≡ without_first count limit (shown_rows rows.old.entries) }
{
    let mut left = count;
    rows.retain(|_, row| {
        if left > 0 && is_before(row.phase, limit) {
            left -= 1;
            false
        } else {
            true
        }
    });
}
