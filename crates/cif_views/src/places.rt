//! Places: words that name locations by their TIPLOC or by their CRS code.
ghost use Rattle.std.specs.Prelude.{◌≡◌, AllPairs, IfNone, IfOk, IfSome, map};
ghost use Rattle.std.specs.{Char.is_ascii_graphic, Char.to_ascii_uppercase, Cmp.Lexicographic.slice_cmp, List.list_all, Ordering.nat_cmp};
ghost use Rattle.std.specs.declared.cmp.Ordering.TheVariants.{Less};
ghost use Rattle.cif_views.specs.{Boards.name_in, Places.IsPlaceOf, Places.IsPlaceWord, Places.crs_of, Places.tiploc_of};
ghost use Rattle.cif_views.specs.Steps.Boards.{AreLocations, code_is, is_at};

use cif_columns::columns_at;
use cif_records::Tiploc;
use std::alloc::{AllocError, Global};
use std::marker::Model;

/// A place of the timetable: all locations that a word names.
#[derive(Clone, Copy)]
pub struct Place {
    /// The columns of the TIPLOC that the word spells.
    pub tiploc: [u8; 7],
    /// The CRS code that it spells, if it has three bytes.
    pub crs: Option<[u8; 3]>,
}

/// These columns, with A to Z for a to z.
fn in_capitals(columns: [u8; 7]) -> [u8; 7]
    ensures { result ≡ map to_ascii_uppercase columns }
{
    let [a, b, c, d, e, f, g] = columns;
    [
        a.to_ascii_uppercase(),
        b.to_ascii_uppercase(),
        c.to_ascii_uppercase(),
        d.to_ascii_uppercase(),
        e.to_ascii_uppercase(),
        f.to_ascii_uppercase(),
        g.to_ascii_uppercase(),
    ]
}

/// Whether all bytes can be seen: 0x21 to 0x7E.
fn are_visible(word: &[u8]) -> bool
    ensures { result ≡ list_all is_ascii_graphic word.now }
{
    for byte in word {
        if !byte.is_ascii_graphic() {
            return false;
        }
    }
    true
}

impl Place {
    /// The place of this word: a TIPLOC, or a CRS code (the CIF End User Specification), in capitals or not. `None` if
    /// the word has no bytes or more than seven, or one outside of 0x21 to 0x7E.
    pub fn of_word(word: &[u8]) -> Option<Place>
        ensures found { IfSome result (IsPlaceOf word.now) }
        ensures none { IfNone result (¬ IsPlaceWord word.now) }
    {
        if word.is_empty() || word.len() > 7 || !are_visible(word) {
            return None;
        }
        let mut tiploc = [b' '; 7];
        tiploc[..word.len()].copy_from_slice(word);
        let tiploc = in_capitals(tiploc);
        let crs = if word.len() == 3 {
            Some([tiploc[0], tiploc[1], tiploc[2]])
        } else {
            None
        };
        Some(Place { tiploc, crs })
    }
}

/// The TIPLOC of a location.
pub fn tiploc_of(tiploc: &Tiploc) -> [u8; 7]
    ensures { result ≡ tiploc_of tiploc.now }
{
    columns_at(&tiploc.write(), 3)
}

/// Whether the location has the CRS code that the place's word is.
fn has_code(tiploc: &Tiploc, place: &Place) -> bool
    ensures { result ≡ code_is place.now.crs (crs_of tiploc.now) }
{
    match place.crs {
        Some(crs) => crs == columns_at::<3>(&tiploc.write(), 54),
        None => false,
    }
}

/// The TIPLOCs that a place names. A clause sees the list of them.
#[derive(Drop)]
pub struct Locations {
    tiplocs: Vec<[u8; 7]>,
}

impl Model for Locations {
    ghost use Rattle.std.specs.{Cmp.Lexicographic.slice_cmp, List.Sorted.IsSorted, Ordering.nat_cmp, Prelude.List, Prelude.ℕ};

    ghost Value = { List (List ℕ) };

    ghost view = { λ l. l.tiplocs.items };

    ghost invariant = { λ l. IsSorted (slice_cmp nat_cmp) l.tiplocs.items };
}

impl Locations {
    /// The TIPLOCs that the place names, where these are all locations.
    pub fn of(alloc: Global, tiplocs: &[Tiploc], place: &Place) -> Result<Locations, AllocError>
        ensures { IfOk result (AreLocations tiplocs.now place.now) }
    {
        let mut named = Vec::new(alloc);
        named.push(place.tiploc)?;
        for tiploc in tiplocs {
            if has_code(tiploc, place) {
                named.push(tiploc_of(tiploc))?;
            }
        }
        named.sort_unstable();
        Ok(Locations { tiplocs: named })
    }

    /// Whether this is one of them.
    pub fn has(&self, location: &[u8; 7]) -> bool
        ensures { result ≡ is_at self.now location.now }
    {
        // Most places have one or two.
        match self.tiplocs.as_slice() {
            [one] => location == one,
            [one, other] => location == one || location == other,
            many => many.binary_search(location).is_ok(),
        }
    }
}

/// A name of no location.
const NO_NAME: [u8; 26] = [b' '; 26];

/// The name of the location with this TIPLOC, in the first of these locations that has it; spaces if none has. They
/// have to rise.
pub(crate) fn location_name(tiplocs: &[Tiploc], location: &[u8; 7]) -> [u8; 26]
    requires { AllPairs (λ s t. slice_cmp nat_cmp s.columns t.columns ≡ Less) tiplocs.now }
    ensures { result ≡ name_in tiplocs.now location.now }
{
    let position = tiplocs.partition_point(|tiploc| tiploc_of(tiploc) < *location);
    match tiplocs.get(position) {
        Some(tiploc) if tiploc_of(tiploc) == *location => columns_at(&tiploc.write(), 19),
        _ => NO_NAME,
    }
}
