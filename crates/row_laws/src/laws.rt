ghost use Rattle.row_laws.specs.Laws.{LeavesOneRow, RowsGiveBasis};

/// Each row of a degree leaves exactly one list of residues at the contested columns, and the elements of the reduced
/// row echelon form of what all rows leave are the reduced basis of the degree. Over `Basis` the premise on lower
/// degrees is `ideal_laws::lower_law`.
pub fn rows_law()
    ensures one { LeavesOneRow }
    ensures basis { RowsGiveBasis }
{}
