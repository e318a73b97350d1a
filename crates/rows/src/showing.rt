// What a row shows, position by position.
ghost use Rattle.std.specs.Prelude.{◌≡◌, ℕ, ◌+◌, ◌<◌, ◌≤◌, if◌then◌else◌};
ghost use Rattle.video.specs.declared.cell.Cell.TheVariants.{Dark};
ghost use Rattle.rows.specs.Buffer.{turned, in_force, column, put, empty_row, resolved, column_cell};
ghost use Rattle.rows.specs.Model.{shown_of};
ghost use Rattle.rows.specs.declared.kinds.Column.TheVariants.{Fixed};

use crate::kinds::{Column, Position};
use crate::state::Showing;
use video::cell::Cell;
use video::field::Field;

// The field behind the position p.
fn in_force(ended: bool, field: Field, p: Position) -> Field
    ensures { result ≡ in_force ended field p }
{
    match p {
        Position::Attribute(a) | Position::Pair(a, _) if !ended => a,
        _ => field,
    }
}

// The column that the position p makes, where k field characters stand before it.
fn column(ended: bool, field: Field, k: u8, p: Position) -> Column
    ensures { result ≡ (if ended then Fixed Dark else column (turned field p) k p) }
{
    match p {
        _ if ended => Column::Fixed(Cell::Dark),
        Position::Letter(c) => Column::Fixed(Cell::Text(c, field)),
        Position::Pair(a, _) => Column::Memory(k, a),
        Position::Graphic(g) => Column::Fixed(Cell::Symbol(g, field)),
        _ => Column::Fixed(Cell::Dark),
    }
}

fn resolved(ring: &[u8; 16], column: Column) -> Cell
    ensures { result ≡ resolved ring.now column }
{
    match column {
        Column::Fixed(cell) => cell,
        Column::Memory(k, field) => Cell::Text(ring[(k % 16) as usize], field),
    }
}

impl Showing {
    // A row that shows nothing yet, in a field that is in force, and hidden below an F2 or F3.
    pub(crate) fn new(field: Field, hidden: bool) -> Showing
        ensures { shown_of result ≡ empty_row field hidden }
    {
        Showing {
            columns: [Column::Fixed(Cell::Dark); 80],
            len: 0,
            ring: [0; 16],
            pairs: 0,
            field,
            ended: false,
            below: hidden,
            hidden,
        }
    }

    // The row below, which shows nothing yet; what the columns behind `len` hold counts for nothing.
    pub(crate) fn renew(&mut self)
        ensures state { shown_of self.new ≡ empty_row self.old.field self.old.below }
        ensures len { self.new.len ≡ 0 }
    {
        self.len = 0;
        self.ring = [0; 16];
        self.pairs = 0;
        self.ended = false;
        self.hidden = self.below;
    }

    // One position more.
    pub(crate) fn put(&mut self, p: Position)
        requires { self.old.len < 80 }
        ensures state { shown_of self.new ≡ put (shown_of self.old) p }
        ensures len { self.new.len ≡ self.old.len + 1 }
    {
        self.columns[self.len as usize] = column(self.ended, self.field, self.pairs, p);
        self.len += 1;
        self.field = in_force(self.ended, self.field, p);
        self.ended |= p.ends();
        self.below |= p.ends_screen();
        if let Position::Pair(_, c) = p {
            self.ring[(self.pairs % 16) as usize] = c;
            self.pairs += 1;
        }
    }

    // What column number p shows.
    pub fn cell(&self, p: u8) -> Cell
        ensures { result ≡ column_cell (shown_of self.now) p }
    {
        if self.hidden {
            return Cell::Dark;
        }
        let column = if p < self.len {
            self.columns[p as usize]
        } else {
            Column::Fixed(Cell::Dark)
        };
        resolved(&self.ring, column)
    }
}
