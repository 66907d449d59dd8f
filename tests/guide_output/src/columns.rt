//! The chapters on values, slices, equality, selection and sharing.
use crate::expected::{EQUALITY, SELECTION, SHARING, SLICES, VALUES};
use crate::lines::{add, are};
use anyhow::Result;
use guide::arrays::parts::validity;
use guide::arrays::{flat, nested, tagged};
use guide::builders::lists;
use guide::{equality, selection, sharing, slices, values};
use std::alloc::Global;
use std::rc::Rc;
use tiekvorn::AnyArray;
use tiekvorn::json::Json;

fn begun(alloc: Global) -> Result<String> {
    let mut lines = String::new(alloc);
    lines.push_str("\n")?;
    Ok(lines)
}

fn values_lines(alloc: Global) -> Result<String> {
    let mut lines = begun(alloc)?;
    let strings = flat::strings(alloc)?;
    let first = values::string_at(&strings, 0);
    lines.push_str(&format!(in alloc; "string_at(0): {first:?}\n")?)?;
    let column = flat::boxed_numbers(alloc)?;
    let sum = values::as_numbers(&column).map(|numbers| values::sum(numbers));
    lines.push_str(&format!(in alloc; "sum: {sum:?}\n")?)?;
    let scalar = values::scalar_at(alloc, &column, 1)?;
    lines.push_str(&format!(in alloc; "scalar_at(1): {}\n", Json::of(&scalar))?)?;
    let column = nested::lists(alloc)?;
    let items = values::list_at(alloc, &column, 2);
    add(alloc, &mut lines, "list_at(2)", items)?;
    let window = values::list_window(&column, 2);
    lines.push_str(&format!(in alloc; "list_window(2): {}\n", Json::of(&window))?)?;
    let longest = values::longest_list(alloc, &column)?;
    lines.push_str(&format!(in alloc; "longest_list: {longest}\n")?)?;
    Ok(lines)
}

fn slices_lines(alloc: Global) -> Result<String> {
    let mut lines = begun(alloc)?;
    let lists = nested::lists(alloc)?;
    let slice = slices::new_slice(alloc, &lists, 1, 2);
    add(alloc, &mut lines, "new_slice(1, 2)", slice)?;
    let mut column = flat::boxed_numbers(alloc)?;
    slices::slice_in_place(&mut column, 1, 3);
    let set = slices::replace_validity(&mut column, validity(alloc, &[true, true, false])?);
    let refused = slices::replace_validity(&mut column, validity(alloc, &[true])?);
    lines.push_str(&format!(in alloc; "replace_validity: {set:?}, of one bit: {refused:?}\n")?)?;
    let name = "slice_in_place(1, 3), the last slot null";
    add(alloc, &mut lines, name, Ok(column))?;
    Ok(lines)
}

fn add_tagged(alloc: Global, lines: &mut String) -> Result<()> {
    let lists = tagged::tagged_lists(alloc)?.boxed();
    let last = tagged::last_list(alloc)?;
    let same = equality::are_equal(&lists, &last);
    let ends = equality::ends_with(&lists, &last);
    lines.push_str(&format!(in alloc; "are_equal of tagged lists and the last one: {same}\n")?)?;
    lines.push_str(&format!(in alloc; "ends_with of tagged lists and the last one: {ends}\n")?)?;
    add(alloc, lines, "last_list", Ok(last))
}

fn equality_lines(alloc: Global) -> Result<String> {
    let mut lines = begun(alloc)?;
    let column: AnyArray = lists::lists(alloc)?.boxed();
    let tail: AnyArray = lists::two_lists(alloc)?.boxed();
    let same = equality::are_equal(&column, &tail);
    lines.push_str(&format!(in alloc; "are_equal: {same}\n")?)?;
    let ends = equality::ends_with(&column, &tail);
    lines.push_str(&format!(in alloc; "ends_with: {ends}\n")?)?;
    let end = slices::sliced_column(column, 2, 2);
    let same = equality::are_equal(&end, &tail);
    lines.push_str(&format!(in alloc; "are_equal of the last two lists: {same}\n")?)?;
    add_tagged(alloc, &mut lines)?;
    Ok(lines)
}

fn selection_lines(alloc: Global) -> Result<String> {
    let mut lines = begun(alloc)?;
    let column = nested::structs(alloc)?.boxed();
    if selection::are_in_bounds(&[3, 0, 0], column.len()) {
        let taken = selection::take_rows(alloc, &column, &[3, 0, 0]);
        add(alloc, &mut lines, "take_rows(3, 0, 0)", taken)?;
    }
    let mask = flat::booleans(alloc)?;
    let filtered = selection::filter_rows(alloc, &column, &mask);
    add(alloc, &mut lines, "filter_rows", filtered)?;
    let columns = vec![in alloc; flat::boxed_numbers(alloc)?, flat::boxed_numbers(alloc)?]?;
    let concatenated = selection::concatenate_columns(alloc, &columns);
    add(alloc, &mut lines, "concatenate_columns", concatenated)?;
    Ok(lines)
}

fn sharing_lines(alloc: Global) -> Result<String> {
    let mut lines = begun(alloc)?;
    let shared = sharing::shared(alloc, nested::lists(alloc)?)?;
    let second = Rc::clone(&shared)?;
    drop(shared);
    let len = second.len();
    lines.push_str(&format!(in alloc; "shared, length seen by the second owner: {len}\n")?)?;
    let lists = nested::lists(alloc)?;
    let boxed = sharing::boxed(alloc, &lists);
    drop(lists);
    add(alloc, &mut lines, "boxed", boxed)?;
    Ok(lines)
}

#[test]
fn slots_have_these_values(rt: HostRuntime) {
    let found = values_lines(rt.alloc());
    assert!(rt; are(&found, VALUES), "{found:?}");
}

#[test]
fn slices_have_these_slots(rt: HostRuntime) {
    let found = slices_lines(rt.alloc());
    assert!(rt; are(&found, SLICES), "{found:?}");
}

#[test]
fn these_arrays_are_equal(rt: HostRuntime) {
    let found = equality_lines(rt.alloc());
    assert!(rt; are(&found, EQUALITY), "{found:?}");
}

#[test]
fn these_rows_are_selected(rt: HostRuntime) {
    let found = selection_lines(rt.alloc());
    assert!(rt; are(&found, SELECTION), "{found:?}");
}

#[test]
fn arrays_are_shared(rt: HostRuntime) {
    let found = sharing_lines(rt.alloc());
    assert!(rt; are(&found, SHARING), "{found:?}");
}
