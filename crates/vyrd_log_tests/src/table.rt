//! Values by key in a table: many keys come, change and go.

use std::alloc::{AllocError, Global};
use std::test::Fail;
use vyrd_table::{AmountTable, Table};

/// The inverse, modulo 2^64, of the number that spreads keys over the places. Multiples of it by
/// small numbers all belong to the first places, so that most of them find none.
const GATHERED: u64 = 0xF1DE_83E1_9937_733D;

/// Of which number the keys are multiples, how many come, for how many the table is made, and how
/// many of them stay.
type Keys = (u64, u64, usize, usize);

const KEYS: &[Keys] = &[
    (1, 40, 0, 26),
    (1, 3000, 3000, 2000),
    (1, 3000, 8, 2000),
    (0x1_0000_0001, 3000, 3000, 2000),
    (GATHERED, 1000, 4096, 666),
];

#[test]
fn keys_come_change_and_go(rt: HostRuntime) -> Result<(), Fail> {
    for (row, (factor, count, made_for, stay)) in KEYS.iter().enumerate() {
        let mut table = filled(rt.alloc(), *factor, *count, *made_for)?;
        assert!(rt;
            has_all(&table, *factor, *count, false),
            "row {row}: at first"
        );
        change(&mut table, *factor, *count)?;
        assert!(rt;
            has_all(&table, *factor, *count, true),
            "row {row}: at last"
        );
        let pairs = table.entries(rt.alloc())?;
        assert!(rt; are_those(&pairs, *stay), "row {row}: in their order");
    }
    Ok(())
}

/// What key number i has at first.
fn first_value(i: u64) -> u64 {
    i.wrapping_add(1)
}

/// What it has at last: each third key is taken out, and the one behind it gets another value.
fn last_value(i: u64) -> u64 {
    match i % 3 {
        0 => 0,
        1 => i.wrapping_add(100),
        _ => first_value(i),
    }
}

/// A table of so many multiples of a number.
fn filled(
    alloc: Global,
    factor: u64,
    count: u64,
    made_for: usize,
) -> Result<Table<u64>, AllocError> {
    let mut table = Table::new(alloc, made_for)?;
    for i in 0..count {
        table.set(i.wrapping_mul(factor), first_value(i))?;
    }
    Ok(table)
}

/// Puts the last value of each key in the place where it is found.
fn change(table: &mut Table<u64>, factor: u64, count: u64) -> Result<(), AllocError> {
    for i in 0..count {
        let key = i.wrapping_mul(factor);
        let slot = table.find(key);
        table.put(key, slot, last_value(i))?;
    }
    Ok(())
}

/// Whether each key has the value of its number, at first or at last, and the next one has none.
fn has_all(table: &Table<u64>, factor: u64, count: u64, at_last: bool) -> bool {
    for i in 0..count {
        let value = if at_last {
            last_value(i)
        } else {
            first_value(i)
        };
        if table.value(i.wrapping_mul(factor)) != value {
            return false;
        }
    }
    table.value(count.wrapping_mul(factor)) == 0
}

/// Whether the keys rise, and are so many.
fn are_those(pairs: &[(u64, u64)], count: usize) -> bool {
    pairs.len() == count && pairs.is_sorted_by(|one, other| one.0 < other.0)
}

#[test]
fn amounts_come_change_and_go(rt: HostRuntime) -> Result<(), Fail> {
    let mut table = successors(rt.alloc(), 1, 40)?;
    change_amounts(&mut table)?;
    assert!(rt; table.amount(0) == 0 && table.amount(7) == 108 && table.amount(39) == 0);
    assert!(rt; table.view(rt.alloc())?.pairs() == [(1, 2), (7, 108)].as_slice());
    Ok(())
}

#[test]
fn amounts_of_many_keys(rt: HostRuntime) -> Result<(), Fail> {
    let table = successors(rt.alloc(), 3000, 3000)?;
    assert!(rt; table.amount(0) == 1 && table.amount(2999) == 3000 && table.amount(3000) == 0);
    assert!(rt; table.view(rt.alloc())?.pairs().len() == 3000);
    Ok(())
}

/// A table, made for so many keys, of the keys below another number, each with its successor as
/// its amount.
fn successors(alloc: Global, made_for: usize, keys: u64) -> Result<AmountTable, AllocError> {
    let mut table = AmountTable::new(alloc, made_for)?;
    for key in 0..keys {
        table.set(key, key + 1)?;
    }
    Ok(table)
}

/// Adds to key 7, takes one of key 0, and removes all others but 1.
fn change_amounts(table: &mut AmountTable) -> Result<(), AllocError> {
    if table.amount(7) == 8 {
        table.add(7, 100)?;
    }
    if table.amount(0) == 1 {
        table.take_one(0);
    }
    for key in 2..40 {
        if key != 7 {
            table.remove(key);
        }
    }
    Ok(())
}
