//! The registers of gap regions: where each line is, and the move that follows a write.

ghost use Rattle.std.specs.Prelude.{◌≡◌, ◌≢◌, ℕ, ◌+◌, ◌*◌, ◌/◌, ◌^◌, ◌<◌, ◌≤◌, ◌↔◌, IsTrue, length, slice_index_or, MatchOption, IfSome};
ghost use Rattle.startgap.specs.Regions.{no_row, new_gaps, line_count, place_count, split_line, row_at, gap_place, gap_holder, after_write};
ghost use Rattle.startgap.specs.Rows.{row_place, row_holder, row_from, row_moved};
ghost use Rattle.startgap.specs.Theorems.{Fit};

use startgap::row::Row;

/// The move of one line: it is read at one place below, and written to another.
#[derive(Clone, Copy)]
pub(crate) struct Move {
    pub(crate) from: u16,
    pub(crate) to: u16,
}

/// Regions of lines, each with one place that holds no line: its gap. After each `interval` writes to a region it moves.
#[derive(Drop)]
pub(crate) struct Regions {
    // a plain table of rows, one of which is lent to be moved: a rule of the project; the first `count` are in use
    rows: [Row; 16],
    count: u16,
    size: u16,
    interval: u16,
    // the copies made since the registers were new
    copies: u32,
    // the settings are in range, also where there are no regions
    ghost few: { count ≤ 16 },
    ghost sized: { 0 < size },
    ghost small: { size ≤ 4096 },
    ghost inside: { count * (size + 1) ≤ 4096 },
    ghost paced: { 0 < interval },
    // each region has a row, every row is in range, and no move is overdue
    ghost enough: { count ≤ length rows },
    ghost starts: { (k : ℕ) → (slice_index_or rows k no_row).start < size },
    ghost holes: { (k : ℕ) → (slice_index_or rows k no_row).gap ≤ size },
    ghost dues: { (k : ℕ) → (slice_index_or rows k no_row).due < interval },
}

// One region: how many lines it has, and its row.
#[derive(Clone, Copy)]
struct Region {
    size: u16,
    row: Row,
    ghost small: { size ≤ 4096 },
    ghost start: { row.start < size },
    ghost hole: { row.gap ≤ size },
}

impl Region {
    // The place within the region of its line at `offset`.
    #[tactic(auto, unfolding(startgap::specs::Rows::row_place))]
    fn place(self, offset: u16) -> u16
        requires { offset < self.size }
        ensures answer { result ≡ row_place self.size self.row offset }
        ensures bound { result ≤ self.size }
    {
        let rotated = (offset + self.row.start) % self.size;
        if rotated < self.row.gap {
            rotated
        } else {
            rotated + 1
        }
    }

    // The offset of the line at a place within the region, and none at its gap.
    #[tactic(auto, unfolding(startgap::specs::Rows::row_holder, startgap::specs::Rows::row_line))]
    fn holder(self, place: u16) -> Option<u16>
        requires { place ≤ self.size }
        ensures answer { result ≡ row_holder self.size self.row place }
        ensures bound { IfSome result (λ offset. offset < self.size) }
    {
        let gap = self.row.gap;
        if place == gap {
            return None;
        }
        let rotated = if place < gap { place } else { place - 1 };
        Some((rotated + (self.size - self.row.start)) % self.size)
    }

    // The place within the region that its next move reads; it writes the gap.
    #[tactic(auto, unfolding(startgap::specs::Rows::row_from))]
    fn source(self) -> u16
        ensures answer { result ≡ row_from self.size self.row }
        ensures bound { result ≤ self.size }
    {
        self.row.gap.checked_sub(1).unwrap_or(self.size)
    }
}

// A number by regions of `size`: its region, and its offset there.
fn split(size: u16, number: u16) -> (u16, u16)
    requires { 0 < size }
    ensures { result ≡ split_line size number }
{
    (number / size, number % size)
}

// Moves the gap of a region of `size` lines to the place that the move reads. Of its row and no `Region`: a rule of the project has one row
// lent by `&mut`.
#[tactic(auto, unfolding(startgap::specs::Rows::row_moved, startgap::specs::Rows::row_from))]
fn advance(row: &mut Row, size: u16)
    requires start { row.old.start < size }
    requires gap { row.old.gap ≤ size }
    ensures answer { row.new ≡ row_moved size row.old }
    ensures start { row.new.start < size }
    ensures gap { row.new.gap ≤ size }
    ensures due { row.new.due ≡ 0 }
{
    if row.gap == 0 {
        row.start = (row.start + 1) % size;
        row.gap = size;
    } else {
        row.gap -= 1;
    }
    row.due = 0;
}

impl Regions {
    ghost use Rattle.gap.specs.Registers.{registers, IsDue};

    /// New registers of `count` regions of `size` lines, which move after each `interval` writes.
    pub(crate) fn new(count: u16, size: u16, interval: u16) -> Regions
        requires fit { Fit count size interval }
        requires small { size ≤ 4096 }
        requires inside { count * (size + 1) ≤ 4096 }
        ensures { registers result ≡ new_gaps count size interval }
    {
        let row = Row {
            start: 0,
            gap: size,
            due: 0,
        };
        Regions {
            rows: [row; 16],
            count,
            size,
            interval,
            copies: 0,
        }
    }

    /// The registers of a layer that does not fit: no regions, with settings that are in range. No `Option`, since no lines is what such a
    /// layer has.
    pub(crate) fn none() -> Regions
        ensures { registers result ≡ new_gaps 0 1 1 }
    {
        Regions::new(0, 1, 1)
    }

    pub(crate) fn line_count(&self) -> u16
        ensures answer { result ≡ line_count (registers self.now) }
        ensures bound { result ≤ 4096 }
    {
        self.count * self.size
    }

    /// How many places below the regions take.
    pub(crate) fn place_count(&self) -> u16
        ensures { result ≡ place_count (registers self.now) }
    {
        self.count * (self.size + 1)
    }

    /// How many copies were made since the registers were new.
    pub(crate) fn copies(&self) -> u32
        ensures { result ≡ (registers self.now).copies }
    {
        self.copies
    }

    /// How many moves at most follow that many writes.
    pub(crate) fn copies_after(&self, writes: u32) -> u32
        ensures { result ≡ writes / (registers self.now).interval }
    {
        writes / self.interval as u32
    }

    /// A line's region, and its offset there.
    pub(crate) fn split(&self, line: u16) -> (u16, u16)
        requires { line < line_count (registers self.now) }
        ensures parts { result ≡ split_line self.now.size line }
        ensures whole { result.0 * self.now.size + result.1 ≡ line }
        ensures region { result.0 < self.now.count }
        ensures offset { result.1 < self.now.size }
    {
        split(self.size, line)
    }

    // A region by its number, as `split` tells it: a struct with the fact that it is below the count would borrow the rows that a write changes.
    fn region(&self, region: u16) -> Region
        requires { region < self.now.count }
        ensures size { result.size ≡ self.now.size }
        ensures row { result.row ≡ row_at (registers self.now) region }
    {
        Region {
            size: self.size,
            row: self.rows[region as usize],
        }
    }

    /// The place below of the line at `offset` of a region.
    #[tactic(auto, using(crate::proofs::Fields::place_in))]
    pub(crate) fn place(&self, region: u16, offset: u16) -> u16
        requires region { region < self.now.count }
        requires offset { offset < self.now.size }
        ensures { result ≡ gap_place (registers self.now) (region * self.now.size + offset) }
    {
        region * (self.size + 1) + self.region(region).place(offset)
    }

    /// The line that is at a place below: none at a gap, and none at a place past the regions.
    #[tactic(auto, using(crate::proofs::Fields::holder_rests))]
    pub(crate) fn holder(&self, place: u16) -> Option<u16>
        ensures { result ≡ gap_holder (registers self.now) place }
    {
        if place >= self.place_count() {
            return None;
        }
        let (region, within) = split(self.size + 1, place);
        self.region(region)
            .holder(within)
            .map(|offset| region * self.size + offset)
    }

    // Does the next write to a region make it move?
    fn is_due(&self, region: u16) -> bool
        requires { region < self.now.count }
        ensures { IsTrue result ↔ ((row_at (registers self.now) region).due + 1 ≡ self.now.interval) }
    {
        self.rows[region as usize].due + 1 == self.interval
    }

    /// The move that follows the next write to a region, if one is due.
    pub(crate) fn due_move(&self, region: u16) -> Option<Move>
        requires { region < self.now.count }
        ensures { MatchOption result ((row_at (registers self.now) region).due + 1 ≢ self.now.interval) (λ step. IsDue (registers self.now) region step) }
    {
        if !self.is_due(region) {
            return None;
        }
        let first = region * (self.size + 1);
        let region = self.region(region);
        Some(Move {
            from: first + region.source(),
            to: first + region.row.gap,
        })
    }

    /// Counts an accepted write to a region, and moves the region where that is due.
    #[tactic(auto, using(crate::proofs::Fields::turned_counts, crate::proofs::Fields::turned_moves))]
    pub(crate) fn count_write(&mut self, region: u16)
        requires region { region < self.old.count }
        requires copies { self.old.copies + 1 < 2 ^ 32 }
        ensures { (line : ℕ) → line / self.old.size ≡ region → registers self.new ≡ after_write (registers self.old) line }
    {
        if self.is_due(region) {
            advance(&mut self.rows[region as usize], self.size);
            self.copies += 1;
        } else {
            self.rows[region as usize].due += 1;
        }
    }
}
