use fd_dictionary::{Dictionary, DictionaryBuilder};
use fd_kinds::NoMemory;
use std::alloc::Global;
use std::test::Fail;

/// The column of the numbers from 0, so many, each as four bytes.
fn numbers(alloc: Global, count: u32) -> Result<Dictionary, NoMemory> {
    let mut column = DictionaryBuilder::new(alloc);
    for number in 0..count {
        column = column.with_text(&number.to_le_bytes())?;
    }
    Ok(column.finish())
}

/// Whether the cell of a number has it as an entry of its own.
fn is_number(column: &Dictionary, number: u32) -> bool {
    let at = number as usize;
    column.index(at) == Some(at) && column.cell(at) == Some(number.to_le_bytes().as_slice())
}

#[test]
fn a_column_has_more_than_65536_distinct_texts(rt: HostRuntime) -> Result<(), Fail> {
    let column = numbers(rt.alloc(), 65_537)?;
    assert!(rt; column.entries() == 65_537);
    assert!(rt; is_number(&column, 65_535) && is_number(&column, 65_536));
    Ok(())
}
