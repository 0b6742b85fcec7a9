// What was read so far, which the judges of the three kinds of line grow.
ghost use Rattle.std.specs.Prelude.{◌≡◌};
ghost use Rattle.reader.specs.ReadSoFar.{Few, used_words, nothing_counted};

// The rows of the variables' names, where they are the most: 136 words.
const NAMES_SIZE: usize = chart::LOCATION_SIZE * semantics::MOST_VARIABLES;

// The rows of the largest chart, and after them the numbers of its locations' names: 3,224 words.
pub const NUMBERS_PLACE: usize = chart::ROWS_SIZE;

const ROWS_SIZE: usize = NUMBERS_PLACE + semantics::MOST_LOCATIONS;

// How many variables, locations and edges are read.
#[derive(Clone, Copy)]
pub struct Tally {
    pub vars: usize,
    pub locs: usize,
    pub edges: usize,
}

// The counts, the chart's rows with the numbers of the locations' names, and the variables' names.
#[derive(Drop)]
pub struct Draft {
    pub tally: Tally,
    pub rows: [i32; ROWS_SIZE],
    pub names: [i32; NAMES_SIZE],
    ghost few: { Few tally },
}

impl Draft {
    // Before the first line.
    pub fn new() -> Draft
        ensures { result.tally ≡ nothing_counted }
    {
        Draft {
            tally: Tally {
                vars: 0,
                locs: 0,
                edges: 0,
            },
            rows: [0; ROWS_SIZE],
            names: [0; NAMES_SIZE],
        }
    }

    // The words of the rows: variables, locations, edges.
    pub fn used_words(&self) -> usize
        ensures { result ≡ used_words self.now.tally }
    {
        chart::rows_size(self.tally.vars, self.tally.locs, self.tally.edges)
    }
}
