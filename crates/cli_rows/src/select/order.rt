//! Selections in row order, each made one record batch at a time.
ghost use Rattle.std.specs.Prelude.{◌≡◌, IfErr, IfOk};
ghost use Rattle.cli_args.specs.Requests.{indices};
ghost use Rattle.cli_args.specs.RequestTrees.{selection_tree};
ghost use Rattle.cli_rows.specs.RowOrder.{IsInRowOrder, is_complete_selection, remaining_selection};

use cli_args::Selection;

/// Returns a selection in row order, or the indices of `Indices`, which may be in any order.
pub fn in_row_order(selection: Selection) -> Result<Selection, Vec<usize>>
    ensures same { IfOk result (λ s. selection_tree s ≡ selection_tree selection) }
    ensures order { IfOk result (λ s. IsInRowOrder (selection_tree s)) }
    ensures indices { IfErr result (λ wanted. selection_tree selection ≡ indices wanted.items) }
{
    match selection {
        Selection::All => Ok(Selection::All),
        Selection::Slice(start, count) => Ok(Selection::Slice(start, count)),
        Selection::Where(condition) => Ok(Selection::Where(condition)),
        Selection::Indices(wanted) => Err(wanted),
    }
}

/// Returns whether no further row is selected, whatever rows there are.
pub fn is_complete(selection: &Selection) -> bool
    ensures { result ≡ is_complete_selection (selection_tree selection.now) }
{
    match selection {
        Selection::Slice(_, count) => *count == 0,
        Selection::All => false,
        Selection::Indices(_) => false,
        Selection::Where(_) => false,
    }
}

/// Changes a selection to what it selects after so many rows.
pub fn skip_rows(selection: &mut Selection, rows: usize)
    ensures { selection_tree selection.new ≡ remaining_selection (selection_tree selection.old) rows }
{
    if let Selection::Slice(start, count) = selection {
        *count = count.saturating_sub(rows.saturating_sub(*start));
        *start = start.saturating_sub(rows);
    }
}
