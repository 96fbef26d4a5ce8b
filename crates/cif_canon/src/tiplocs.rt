//! The locations of a canonical extract, and those that only one of two lists has.
ghost use Rattle.std.specs.Prelude.{◌+◌, ◌<◌, IfOk, List, length};
ghost use Rattle.cif_records.specs.declared.tiploc.Tiploc.{Tiploc};
ghost use Rattle.cif_canon.specs.{Differences.AreDifferentTiplocs, Steps.OnlySides.AreSifting, Steps.OnlySides.IsFirstOrder};
ghost use Rattle.cif_canon.specs.Tiplocs.{AreDistinct};

use crate::listed_differences::{Side, Sided, push_next};
use cif_records::Tiploc;
use std::alloc::{AllocError, Global};
use std::cmp::Ordering;

/// The locations, each once, rising by their columns.
pub fn distinct_tiplocs(alloc: Global, tiplocs: &[Tiploc]) -> Result<Vec<Tiploc>, AllocError>
    ensures { IfOk result (λ distinct. AreDistinct tiplocs.now distinct.items) }
{
    let mut distinct = Vec::from_slice(alloc, tiplocs)?;
    distinct.sort_unstable();
    distinct.dedup();
    Ok(distinct)
}

/// How the first locations of two lists compare, where one that is absent is the greater; none where
/// both are absent.
fn first_order(left: &[Tiploc], right: &[Tiploc]) -> Option<Ordering>
    ensures { IsFirstOrder left.now right.now result }
{
    match (left, right) {
        ([], []) => None,
        ([], _) => Some(Ordering::Greater),
        (_, []) => Some(Ordering::Less),
        ([one, ..], [other, ..]) => Some(one.cmp(other)),
    }
}

/// Takes the first location of both lists if they are equal, else the lesser one, and adds that to `found`.
fn pass_first<'x>(
    found: &mut Vec<Sided<Tiploc>>,
    order: Ordering,
    lefts: &'x [Tiploc],
    rights: &'x [Tiploc],
) -> Result<(&'x [Tiploc], &'x [Tiploc]), AllocError>
    requires { IsFirstOrder lefts.now rights.now (Some order) }
    ensures sifting { IfOk result (λ rest. (left right : List Tiploc) →
        AreSifting left right lefts.now rights.now found.old.items →
        AreSifting left right rest.0.now rest.1.now found.new.items) }
    ensures smaller { IfOk result (λ rest. length rest.0.now + length rest.1.now
        < length lefts.now + length rights.now) }
{
    match order {
        Ordering::Less => push_next(found, Side::Left, lefts, rights),
        Ordering::Greater => push_next(found, Side::Right, lefts, rights),
        Ordering::Equal => Ok((&lefts[1..], &rights[1..])),
    }
}

/// The locations that only one of the two lists has, rising by their columns.
pub(crate) fn different_tiplocs(
    alloc: Global,
    left: &[Tiploc],
    right: &[Tiploc],
) -> Result<Vec<Sided<Tiploc>>, AllocError>
    ensures { IfOk result (λ found. AreDifferentTiplocs left.now right.now found.items) }
{
    let left = distinct_tiplocs(alloc, left)?;
    let right = distinct_tiplocs(alloc, right)?;
    let mut lefts = left.as_slice();
    let mut rights = right.as_slice();
    let mut found = Vec::new(alloc);
    while let Some(order) = first_order(lefts, rights) {
        let rest = pass_first(&mut found, order, lefts, rights)?;
        lefts = rest.0;
        rights = rest.1;
    }
    Ok(found)
}
