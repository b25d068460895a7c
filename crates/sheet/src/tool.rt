// What the tool keeps from one line of the sheet to the next.
ghost use Rattle.std.specs.Prelude.{◌≡◌};
ghost use Rattle.sheet.specs.Tool.{one_more, fresh, next_line, judged_of, sent_of, begun_of, stepped_of, ended_of};

use syntax::Case;

#[derive(Clone, Copy)]
pub struct Tool {
    // Of its next message.
    pub ctr: u8,
    // What an answer with a seed has at the seed's place.
    pub seed: u32,
    // The line of the sheet that it is at, and where in a case that is.
    pub line: u32,
    pub case: Case,
    // Whether all came as expected in this case.
    pub good: bool,
    // Cases and steps so far, the cases of these that came different, and the first such line.
    pub cases: u32,
    pub steps: u32,
    pub different: u32,
    pub first: Option<u32>,
}

// A sheet has fewer than 65,536 lines: no count wraps.
fn one_more(count: u32) -> u32
    ensures { result ≡ one_more count }
{
    count.wrapping_add(1)
}

impl Tool {
    pub fn new() -> Self
        ensures { result ≡ fresh }
    {
        Self {
            ctr: 0,
            seed: 0,
            line: 0,
            case: Case::Closed,
            good: true,
            cases: 0,
            steps: 0,
            different: 0,
            first: None,
        }
    }

    pub fn next_line(&mut self)
        ensures { self.new ≡ next_line self.old }
    {
        self.line = one_more(self.line);
    }

    // A verdict. The first line that differs stays the first.
    pub fn judge(&mut self, good: bool)
        ensures { self.new ≡ judged_of self.old good }
    {
        if !good {
            self.good = false;
            self.first = self.first.or(Some(self.line));
        }
    }

    // So many messages went to the slave.
    pub fn sent(&mut self, times: u8)
        ensures { self.new ≡ sent_of self.old times }
    {
        self.ctr = self.ctr.wrapping_add(times);
    }

    // A case's title.
    pub fn begin(&mut self)
        ensures { self.new ≡ begun_of self.old }
    {
        self.case = Case::Titled(self.line);
        self.good = true;
    }

    // A step was run.
    pub fn step(&mut self)
        ensures { self.new ≡ stepped_of self.old }
    {
        self.case = Case::Stepped;
        self.steps = one_more(self.steps);
    }

    // The end of a case.
    pub fn end(&mut self)
        ensures { self.new ≡ ended_of self.old }
    {
        self.case = Case::Closed;
        self.cases = one_more(self.cases);
        if !self.good {
            self.different = one_more(self.different);
        }
    }
}
