// Rows, with a place for each of some numbers.
ghost use Rattle.std.specs.Prelude.{◌≡◌};
ghost use Rattle.attr_rules.specs.RowsKept.{at_place, at_row, with_first};

/// Puts an item at a place of a row, where there is none yet.
pub(crate) fn put_first<T: Copy>(row: &mut [Option<T>], place: usize, item: T)
    ensures { row.new ≡ with_first row.old place item }
{
    if place < row.len() && row[place].is_none() {
        row[place] = Some(item);
    }
}

/// What stands at a place of a row.
pub(crate) fn at_place<T: Copy>(row: &[Option<T>], place: usize) -> Option<T>
    ensures { result ≡ at_place row.now place }
{
    row.get(place).copied().flatten()
}

/// What stands at a place of one of some rows.
pub(crate) fn at_row<T: Copy>(rows: &[Vec<Option<T>>], row: usize, place: usize) -> Option<T>
    ensures { result ≡ at_row rows.now row place }
{
    let row = rows.get(row)?;
    at_place(row, place)
}
