//! A long list in folds: by the hour (UTC), or 200 to a fold.

ghost use Rattle.std.specs.Prelude.{◌≡◌, ◌≤◌, ◌++◌, IfOk, OnOk, cond, drop, false, take};
ghost use Rattle.page_text.specs.Parts.{with_part};
ghost use Rattle.day_sections.specs.Folds.{ended, fold_end, fold_part, folds, folds_200, folds_from, hour_of, of_200, start_after, within};

use crate::template::{FOLD, FOLD_END};
use day_tables::wide_text;
use page_text::Page;
use sef_moment::Moment;
use std::alloc::{AllocError, Global};

/// Part of a list, from one place up to another.
#[derive(Clone, Copy)]
pub struct Fold {
    pub from: usize,
    pub to: usize,
}

/// The hour of a moment, counted from 1970.
pub fn hour_of(moment: Moment) -> u64
    ensures { result ≡ hour_of moment }
{
    moment.ms() / 3_600_000
}

fn push_fold(folds: &mut Vec<Fold>, from: usize, to: usize) -> Result<(), AllocError>
    ensures { OnOk result (folds.new.items ≡ folds.old.items ++ ended false from to) }
{
    match folds.push(Fold { from, to }) {
        Ok(()) => Ok(()),
        Err(_) => Err(AllocError),
    }
}

/// Appends a fold, if it does not go on.
fn end_fold(folds: &mut Vec<Fold>, goes_on: bool, from: usize, to: usize) -> Result<(), AllocError>
    ensures { OnOk result (folds.new.items ≡ folds.old.items ++ ended goes_on from to) }
{
    if goes_on {
        Ok(())
    } else {
        push_fold(folds, from, to)
    }
}

fn start_after(goes_on: bool, start: usize, at: usize) -> usize
    ensures { result ≡ start_after goes_on start at }
{
    if goes_on { start } else { at }
}

/// The folds of a first hour and of those behind it.
fn folds_behind(alloc: Global, first: u64, others: &[u64]) -> Result<Vec<Fold>, AllocError>
    ensures { IfOk result (λ folds. folds.items ≡ folds_from 0 1 first others.now) }
{
    let mut folds = Vec::new(alloc);
    let mut start = 0;
    let mut hour = first;
    for at in 0..others.len() {
        let next = others[at];
        let goes_on = next == hour;
        end_fold(&mut folds, goes_on, start, at + 1)?;
        start = start_after(goes_on, start, at + 1);
        hour = next;
    }
    push_fold(&mut folds, start, others.len() + 1)?;
    Ok(folds)
}

/// The folds of some things, by the hour of each.
pub fn folds_of(alloc: Global, hours: &[u64]) -> Result<Vec<Fold>, AllocError>
    ensures { IfOk result (λ made. made.items ≡ folds hours.now) }
{
    match hours.split_first() {
        None => Ok(Vec::new(alloc)),
        Some((first, others)) => folds_behind(alloc, *first, others),
    }
}

/// The first of some things.
pub fn up_to<T>(items: &[T], most: usize) -> &[T]
    ensures { result.now ≡ take most items.now }
{
    if items.len() > most {
        let (first, _) = items.split_at(most);
        first
    } else {
        items
    }
}

/// The others.
fn behind<T>(items: &[T], most: usize) -> &[T]
    ensures { result.now ≡ drop most items.now }
{
    let (_, others) = items.split_at(most.min(items.len()));
    others
}

/// What stands in a fold.
pub fn within<T>(items: &[T], fold: Fold) -> &[T]
    ensures { result.now ≡ within fold items.now }
{
    up_to(behind(items, fold.from), fold.to.saturating_sub(fold.from))
}

/// What stands in the fold with this number, of 200 each.
pub fn of_200<T>(items: &[T], number: usize) -> &[T]
    ensures { result.now ≡ of_200 number items.now }
{
    up_to(behind(items, number.saturating_mul(200)), 200)
}

fn one_unless(test: bool) -> usize
    ensures result { result ≡ cond test 0 1 }
    ensures few { result ≤ 1 }
{
    if test { 0 } else { 1 }
}

/// How many folds of 200 there are.
pub fn folds_200(count: usize) -> usize
    ensures { result ≡ folds_200 count }
{
    count / 200 + one_unless(count % 200 == 0)
}

/// The most things that have their part in folds of 200.
pub const MOST_FOLDED: usize = 10_000;

/// Adds the head of a fold: which things of the list it has.
pub fn add_fold_head(
    alloc: Global,
    page: &mut Page,
    number: usize,
    count: usize,
) -> Result<(), AllocError>
    ensures { OnOk result (page.new ≡ with_part page.old (fold_part number count)) }
{
    let before = number as u128 * 200;
    let from = wide_text(alloc, before + 1)?;
    let to = wide_text(alloc, before + count as u128)?;
    page.add(FOLD, &[&from, &to])
}

/// Adds its end.
pub fn add_fold_end(page: &mut Page) -> Result<(), AllocError>
    ensures { OnOk result (page.new ≡ with_part page.old fold_end) }
{
    page.add(FOLD_END, &[])
}
