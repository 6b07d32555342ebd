//! Rows of numbers that are folded and joined.

use crate::text::RowFault;
use join_laws::{Greatest, GrowSet, Join, Least, PairOf, fold_ops};
use std::alloc::{AllocError, Global};

/// The least and the greatest of some numbers, and all of them.
type Numbers = PairOf<PairOf<Least<u64>, Greatest<u64>>, GrowSet<u64>>;

fn numbers_of(alloc: Global, words: &str) -> Result<Vec<u64>, RowFault> {
    let mut numbers = Vec::new(alloc);
    for word in words.split_whitespace() {
        let number = word.parse::<u64>()?;
        numbers.extend_from_slice(&[number])?;
    }
    Ok(numbers)
}

fn put_number(out: &mut String, number: Option<&u64>) -> Result<(), AllocError> {
    match number {
        Some(number) => write!(out, " {number}"),
        None => out.push_str(" none"),
    }
}

fn put_numbers(out: &mut String, numbers: &Numbers) -> Result<(), AllocError> {
    let (ends, all) = numbers.get();
    let (least, greatest) = ends.get();
    out.push_str("least")?;
    put_number(out, least.get())?;
    out.push_str(", greatest")?;
    put_number(out, greatest.get())?;
    out.push_str(", all")?;
    for number in all.get() {
        write!(out, " {number}")?;
    }
    Ok(())
}

/// `folded NUMBER.., NUMBER..`: the least and the greatest of the numbers of two lists, and all.
pub fn put_folded(alloc: Global, out: &mut String, words: &str) -> Result<(), RowFault> {
    let (left, right) = words.split_once(", ").ok_or(RowFault::BadWord)?;
    let left = numbers_of(alloc, left)?;
    let right = numbers_of(alloc, right)?;
    let mut both: Numbers = fold_ops(alloc, left.as_slice())?;
    both.join_with(&fold_ops(alloc, right.as_slice())?)?;
    Ok(put_numbers(out, &both)?)
}
