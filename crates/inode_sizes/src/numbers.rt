//! Numbers of blocks, and those that stay where their file is cut.
ghost use Rattle.std.specs.Prelude.{◌≡◌, ◌+◌, ◌++◌, ◌∷◌, [], ◌≤◌, cond, length, drop, filter, count_by, nat_eq, IfOk};
ghost use Rattle.std.specs.Prelude.{OnOk};
ghost use Rattle.base.specs.declared.TheConstants.{INDIRECT_INDEXES};
ghost use Rattle.inode_sizes.specs.Cut.{IsRowCut, first_of, is_some, one_of};

use std::alloc::{AllocError, Global};

// The numbers of which the first so many stay.
fn first_of(alloc: Global, numbers: &[u32], count: usize) -> Result<Vec<u32>, AllocError>
    requires { count ≤ length numbers.now }
    ensures len { IfOk result (λ first. length first.items ≡ length numbers.now) }
    ensures is { IfOk result (λ first. first.items ≡ first_of count numbers.now) }
{
    let mut first = Vec::from_slice(alloc, &numbers[..count])?;
    first.resize(numbers.len(), 0)?;
    Ok(first)
}

/// How many of the numbers are those of blocks.
pub(crate) fn count_some(numbers: &[u32]) -> u32
    requires { length numbers.now ≤ INDIRECT_INDEXES }
    ensures few { result ≤ length numbers.now }
    ensures count { result ≡ count_by is_some numbers.now }
{
    let mut count = 0;
    for number in numbers {
        if *number != 0 {
            count += 1;
        }
    }
    count
}

// Adds those of the numbers that are those of blocks.
fn add_some(alloc: Global, numbers: &[u32], gone: &mut Vec<u32>) -> Result<(), AllocError>
    ensures { OnOk result (gone.new.items ≡ gone.old.items ++ filter is_some numbers.now) }
{
    let mut some = Vec::from_slice(alloc, numbers)?;
    some.retain(|number| *number != 0);
    gone.extend_from_slice(&some)?;
    Ok(())
}

/// What stays of some numbers of a file's: these, and how many of them are those of blocks.
#[derive(Drop)]
pub(crate) struct LeftOverNumbers {
    pub numbers: Vec<u32>,
    pub count: u32,
}

/// Cuts numbers: the first so many stay. What is gone is added to that.
pub(crate) fn cut_numbers(
    alloc: Global,
    numbers: &[u32],
    count: usize,
    gone: &mut Vec<u32>,
) -> Result<LeftOverNumbers, AllocError>
    requires { length numbers.now ≤ INDIRECT_INDEXES }
    ensures numbers { IfOk result (λ left_over. left_over.numbers.items ≡ first_of count numbers.now) }
    ensures len { IfOk result (λ left_over. length left_over.numbers.items ≡ length numbers.now) }
    ensures few { IfOk result (λ left_over. left_over.count ≤ length numbers.now) }
    ensures count { IfOk result (λ left_over. left_over.count ≡ count_by is_some left_over.numbers.items) }
    ensures gone { IfOk result (λ _. gone.new.items ≡ gone.old.items ++ filter is_some (drop count numbers.now)) }
{
    let most = count.min(numbers.len());
    add_some(alloc, &numbers[most..], gone)?;
    let left_over = first_of(alloc, numbers, most)?;
    let some = count_some(&left_over);
    Ok(LeftOverNumbers {
        numbers: left_over,
        count: some,
    })
}

/// Keeps a block that holds numbers where so many of these are left: it is gone where none is. Said is its number, 0
/// where it is gone.
pub(crate) fn keep_pointer(pointer: u32, left: u32, gone: &mut Vec<u32>) -> Result<u32, AllocError>
    ensures is { IfOk result (λ left_over. left_over ≡ cond (nat_eq left 0) 0 pointer) }
    ensures gone { IfOk result
        (λ _. gone.new.items ≡ gone.old.items ++ filter is_some (cond (nat_eq left 0) pointer 0 ∷ [])) }
{
    if left > 0 {
        return Ok(pointer);
    }
    if pointer != 0 {
        gone.push(pointer)?;
    }
    Ok(0)
}

/// How many blocks this number is that of: one or none.
pub(crate) fn one_of(number: u32) -> u32
    ensures few { result ≤ 1 }
    ensures is { result ≡ one_of number }
{
    if number == 0 {
        return 0;
    }
    1
}

/// What stays of a pointer block: its number, 0 where none of its numbers is left or there was none; the numbers in it;
/// and how many blocks these are, with itself.
#[derive(Drop)]
pub(crate) struct Row {
    pub pointer: u32,
    pub numbers: Vec<u32>,
    pub used: u32,
}

/// Cuts the numbers of a pointer block, of which the first so many stay. A block of which none stays is gone too.
pub(crate) fn cut_row(
    alloc: Global,
    pointer: u32,
    numbers: &[u32],
    count: usize,
    gone: &mut Vec<u32>,
) -> Result<Row, AllocError>
    requires { length numbers.now ≡ INDIRECT_INDEXES }
    ensures is { IfOk result (λ row. IsRowCut pointer numbers.now count gone.old.items row.pointer row.numbers.items
        row.used gone.new.items) }
    ensures len { IfOk result (λ row. length row.numbers.items ≡ INDIRECT_INDEXES) }
    ensures few { IfOk result (λ row. row.used ≤ INDIRECT_INDEXES + 1) }
{
    let left_over = cut_numbers(alloc, numbers, count, gone)?;
    let now = keep_pointer(pointer, left_over.count, gone)?;
    Ok(Row {
        pointer: now,
        numbers: left_over.numbers,
        used: one_of(now) + left_over.count,
    })
}
