// Rows lent as numbers, as spans: a run, or an entry of a list and the row after it. A walk keeps the number of the span that it has come to.
ghost use Rattle.std.specs.Prelude.{◌≡◌, ◌+◌, ◌*◌, ◌/◌, ◌<◌, ◌≤◌, length, get_or};
ghost use Rattle.rows.specs.Runs.{held};
ghost use Rattle.outside.specs.First.{First, Reach};
ghost use Rattle.outside.specs.Spans.{spans, Come, Stands};

// A span: its first row, and the row past its last.
#[derive(Clone, Copy)]
pub struct Span {
    pub first: u64,
    pub past: u64,
}

// The span at which a walk stands, and its number.
#[derive(Clone, Copy)]
pub struct Place {
    pub next: usize,
    pub span: Span,
}

// The row to which a walk has come, and the number of its span.
#[derive(Clone, Copy)]
pub struct Walk {
    pub next: usize,
    pub row: u64,
}

// Rows lent as numbers: a list's, each on its own, or runs, in pairs.
#[derive(Clone, Copy)]
pub enum Numbers<'a> {
    List(&'a [u32]),
    Runs(&'a [u32]),
}

impl<'a> Numbers<'a> {
    fn count_spans(self) -> usize
        ensures { result ≡ length (spans self.entry) / 2 }
    {
        match self {
            Numbers::List(rows) => rows.len(),
            Numbers::Runs(rows) => rows.len() / 2,
        }
    }

    // Span number i.
    fn span_at(self, i: usize) -> Span
        requires { i < length (spans self) / 2 }
        ensures { (result.first ≡ get_or (spans self.entry) (i * 2) 0) × (result.past ≡ get_or (spans self.entry) (i * 2 + 1) 0) }
    {
        match self {
            Numbers::List(rows) => {
                let row = rows[i] as u64;
                Span {
                    first: row,
                    past: row + 1,
                }
            }
            Numbers::Runs(rows) => Span {
                first: rows[i * 2] as u64,
                past: rows[i * 2 + 1] as u64,
            },
        }
    }

    // The span that holds the row, or else the first after it, from number next on.
    fn stand(self, len: u64, next: usize, row: u64) -> Place
        requires { Come (spans self) len next row }
        ensures { Come (spans self.entry) len result.next row × Stands (spans self.entry) len row result.span.first result.span.past }
    {
        for i in next..self.count_spans() {
            let span = self.span_at(i);
            if row < span.past {
                return Place { next: i, span };
            }
        }
        // None is left, so none is asked for again.
        Place {
            next,
            span: Span {
                first: len,
                past: len,
            },
        }
    }

    // The next row from row on that a span holds.
    pub fn next_held(self, len: u64, next: usize, row: u64) -> Walk
        requires { Come (spans self) len next row × (row ≤ len) }
        ensures { Come (spans self.entry) len result.next result.row × First (λ i. held i (spans self.entry)) row len result.row }
    {
        let Place { next, span } = self.stand(len, next, row);
        Walk {
            next,
            row: span.first.max(row),
        }
    }

    // The row past the span that holds the row, and the row itself where none does.
    pub fn held_to(self, len: u64, next: usize, row: u64) -> Walk
        requires { Come (spans self) len next row × (row < len) }
        ensures { Come (spans self.entry) len result.next result.row × Reach (λ i. held i (spans self.entry)) row len result.row }
    {
        let Place { next, span } = self.stand(len, next, row);
        if row < span.first {
            return Walk { next, row };
        }
        Walk {
            next,
            row: span.past,
        }
    }
}
