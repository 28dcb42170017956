// The links of a cell, the ends of a list, and how a cell is linked in and taken out.
ghost use Rattle.std.specs.Prelude.{◌≡◌, ◌<◌, length, set, Some, None, IfSome};
ghost use Rattle.px_links.specs.Lists.{with_last, without_cell};
ghost use Rattle.px_links.specs.Keeping.{IsTable, cell_at, lists_in};
ghost use Rattle.px_links.specs.Relinking.{past, with_next, with_before};

/// A cell's neighbours in its list, and the number of that list; all None where it is in no list.
#[derive(Clone, Copy)]
pub struct Cell {
    pub next: Option<u32>,
    pub before: Option<u32>,
    pub holder: Option<u32>,
}

impl Cell {
    /// In no list.
    pub const ABSENT: Cell = Cell {
        next: None,
        before: None,
        holder: None,
    };
}

/// The first and the last cell of a list; None where it is empty.
#[derive(Clone, Copy)]
pub struct Ends {
    pub first: Option<u32>,
    pub last: Option<u32>,
}

impl Ends {
    /// Of a list without cells.
    pub const EMPTY: Ends = Ends {
        first: None,
        last: None,
    };
}

fn set_next(cells: &mut [Cell], at: Option<u32>, next: Option<u32>)
    requires { IfSome at (λ at. at < length cells.old) }
    ensures { cells.new ≡ with_next at next cells.old }
{
    if let Some(at) = at {
        cells[at as usize].next = next;
    }
}

fn set_before(cells: &mut [Cell], at: Option<u32>, before: Option<u32>)
    requires { IfSome at (λ at. at < length cells.old) }
    ensures { cells.new ≡ with_before at before cells.old }
{
    if let Some(at) = at {
        cells[at as usize].before = before;
    }
}

// What becomes of an end of a list as a cell goes beside which the other one stands.
fn end_past(end: Option<u32>, cell: u32, other: Option<u32>) -> Option<u32>
    ensures { result ≡ past cell other end }
{
    match end {
        Some(at) if at == cell => other,
        _ => end,
    }
}

/// Links an absent cell behind the others of a list.
pub(crate) fn link_last(cells: &mut [Cell], ends: &mut [Ends], list: u32, cell: u32)
    requires table { IsTable cells.old ends.old (lists_in cells.old ends.old) }
    requires list { list < length ends.old }
    requires cell { cell < length cells.old }
    requires absent { (cell_at cells.old cell).holder ≡ None }
    ensures { IsTable cells.new ends.new (with_last (lists_in cells.old ends.old) list cell) }
{
    let Ends { first, last } = ends[list as usize];
    set_next(cells, last, Some(cell));
    cells[cell as usize] = Cell {
        before: last,
        holder: Some(list),
        ..Cell::ABSENT
    };
    ends[list as usize] = Ends {
        first: first.or(Some(cell)),
        last: Some(cell),
    };
}

/// Takes a cell out of its list, whose other cells keep their order.
pub(crate) fn take_out(cells: &mut [Cell], ends: &mut [Ends], list: u32, cell: u32)
    requires table { IsTable cells.old ends.old (lists_in cells.old ends.old) }
    requires cell { cell < length cells.old }
    requires held { (cell_at cells.old cell).holder ≡ Some list }
    ensures { IsTable cells.new ends.new (without_cell (lists_in cells.old ends.old) cell) }
{
    let Cell { next, before, .. } = cells[cell as usize];
    set_next(cells, before, next);
    set_before(cells, next, before);
    cells[cell as usize] = Cell::ABSENT;
    let Ends { first, last } = ends[list as usize];
    ends[list as usize] = Ends {
        first: end_past(first, cell, next),
        last: end_past(last, cell, before),
    };
}
