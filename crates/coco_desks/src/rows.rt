//! Items by rows and by columns: so the passes of each lock go to the workers, and back.

ghost use Rattle.std.specs.Prelude.{◌≡◌, ℕ, ◌+◌, ◌<◌, ◌≤◌, ◌++◌, [], All, length, slice_index_or, vec_len, vec_capacity};
ghost use Rattle.coco_desks.specs.Rows.{GainsOne, column};

/// Moves the items of a row behind those of the columns, one to each.
pub fn hand_out<T>(row: &mut Vec<T>, columns: &mut [Vec<T>])
    requires count { vec_len row.old ≡ length columns.old }
    requires room { All (λ column. vec_len column < vec_capacity column) columns.old }
    ensures empty { row.new.items ≡ [] }
    ensures kept { vec_capacity row.new ≡ vec_capacity row.old }
    ensures count { length columns.new ≡ length columns.old }
    ensures each { (place : ℕ) (d : _) (x : _) → place < length columns.old → GainsOne (slice_index_or row.old.items place x) (slice_index_or columns.old place d) (slice_index_or columns.new place d) }
{
    let mut left = columns.len();
    while left > 0 {
        left -= 1;
        let Some(item) = row.pop() else {
            unreachable!()
        };
        columns[left].push_reserved(item);
    }
}

/// Moves the items of all rows so, row after row: behind its own items each column has the rows' items at its place.
pub fn turn<T>(rows: &mut [Vec<T>], columns: &mut [Vec<T>])
    requires counts { All (λ row. vec_len row ≡ length columns.old) rows.old }
    requires room { All (λ column. vec_len column + length rows.old ≤ vec_capacity column) columns.old }
    ensures rows { length rows.new ≡ length rows.old }
    ensures empty { (place : ℕ) (d : _) → place < length rows.old → (slice_index_or rows.new place d).items ≡ [] }
    ensures kept { (place : ℕ) (d : _) → place < length rows.old → vec_capacity (slice_index_or rows.new place d) ≡ vec_capacity (slice_index_or rows.old place d) }
    ensures count { length columns.new ≡ length columns.old }
    ensures each { (place : ℕ) (d : _) → place < length columns.old → (slice_index_or columns.new place d).items ≡ (slice_index_or columns.old place d).items ++ column place rows.old }
    ensures capacity { (place : ℕ) (d : _) → place < length columns.old → vec_capacity (slice_index_or columns.new place d) ≡ vec_capacity (slice_index_or columns.old place d) }
{
    for place in 0..rows.len() {
        hand_out(&mut rows[place], columns);
    }
}
