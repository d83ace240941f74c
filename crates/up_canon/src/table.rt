//! Values by name, in byte order of the names.
ghost use Rattle.std.specs.Prelude.{◌≡◌, ◌<◌, ◌≤◌, option_map, OnOk, OnErr, insert, vec_len, vec_capacity};
ghost use Rattle.std.specs.FinMap as map;
ghost use Rattle.std.specs.Ordering.{nat_cmp};
ghost use Rattle.std.specs.Cmp.Lexicographic.{slice_cmp};
ghost use Rattle.std.specs.List.Sorted.{IsStrictlySortedBy};
ghost use Rattle.up_canon.specs.Tables.{place_of as place_of_name};

use crate::text::Text;
use std::alloc::{AllocError, Global};
use std::cmp::Ordering;
use std::marker::Model;

/// One value for each name, in byte order of the names.
#[derive(Debug, Drop)]
pub struct Table<T> {
    names: Vec<Text>,
    values: Vec<T>,
}

impl<T> Model for Table<T> {
    ghost use Rattle.std.specs.Prelude.{◌≡◌, ℕ, List, length};
    ghost use Rattle.std.specs.FinMap as map;
    ghost use Rattle.std.specs.Coded.{coded_ℕ, coded_list};
    ghost use Rattle.std.specs.Ordering.{nat_cmp};
    ghost use Rattle.std.specs.Cmp.Lexicographic.{slice_cmp};
    ghost use Rattle.std.specs.List.{zip};
    ghost use Rattle.up_canon.specs.Tables.{IsInOrder};

    ghost Value = { map.FinMap (slice_cmp nat_cmp) T };

    ghost coded = { map.code (coded_list coded_ℕ) T.code };

    ghost view = { λ a. map.from_sorted (zip a.names.items a.values.items) };

    ghost invariant = { λ a. IsInOrder a.names.items a.values.items };
}

impl<T> Table<T> {
    /// A table without names.
    pub fn new(alloc: Global) -> Table<T>
        ensures { result ≡ map.empty }
    {
        Table {
            names: Vec::new(alloc),
            values: Vec::new(alloc),
        }
    }

    /// How many names there are.
    pub fn len(&self) -> usize
        ensures { result ≡ map.len self.now }
    {
        self.names.len()
    }

    /// The values in byte order of their names.
    pub fn values(&self) -> &[T]
        ensures { result.now ≡ map.values self.now }
    {
        self.values.as_slice()
    }

    /// The value of the name.
    pub fn get(&self, name: &str) -> Option<&T>
        ensures { option_map (λ v. v.now) result ≡ map.get self.now name.now }
    {
        match place_for(self.names.as_slice(), name) {
            Ok(place) => Some(&self.values[place]),
            Err(_) => None,
        }
    }

    /// Whether there is a value of the name.
    pub fn contains(&self, name: &str) -> bool
        ensures { result ≡ map.contains_key self.now name.now }
    {
        self.get(name).is_some()
    }
}

impl<T: Drop> Table<T> {
    /// Gives the name the value, in place of the one that it had. On an error the table is as it was.
    pub fn insert(&mut self, name: Text, value: T) -> Result<(), AllocError>
        ensures ok { OnOk result (self.new ≡ map.insert self.old name value) }
        ensures err { OnErr result (self.new ≡ self.old) }
    {
        match place_for(self.names.as_slice(), name.as_str()) {
            Ok(place) => {
                self.values[place] = value;
                Ok(())
            }
            Err(place) => {
                self.names.reserve(1)?;
                self.values.reserve(1)?;
                insert_at(&mut self.names, place, name);
                insert_at(&mut self.values, place, value);
                Ok(())
            }
        }
    }
}

/// The place of the name, or the place where it would stand: behind the last name at one comparison, so that names in
/// their order are put in as many steps as there are, and elsewhere by halves.
fn place_for(names: &[Text], name: &str) -> Result<usize, usize>
    requires { IsStrictlySortedBy (slice_cmp nat_cmp) names.now }
    ensures { result ≡ place_of_name name.now names.now }
{
    if let Some(last) = names.last() {
        if last.as_str() < name {
            return Err(names.len());
        }
    }
    names.binary_search_by(
        |other: &Text| -> Ordering
            ensures { result ≡ slice_cmp nat_cmp other.now name.entry.now }
        { other.as_str().cmp(name) },
    )
}

/// Puts an item at its place, for which there is room.
fn insert_at<X: Drop>(items: &mut Vec<X>, place: usize, item: X)
    requires room { vec_len items.old < vec_capacity items.old }
    requires within { place ≤ vec_len items.old }
    ensures { items.new.items ≡ insert items.old.items place item }
{
    items.insert(place, item).unwrap();
}
