// An input, line by line.
ghost use Rattle.std.specs.Prelude.{◌≡◌, ◌+◌, ◌^◌, ◌<◌, ◌∷◌, length, ◌==◌, position};
ghost use Rattle.std.specs.Iterator.{item_count};
ghost use Rattle.serve.specs.Lines.{newline, lines};

// A line without its line end, and its number in the input, counted from 1.
#[derive(Clone, Copy)]
pub(crate) struct Line<'a> {
    pub(crate) number: usize,
    pub(crate) text: &'a [u8],
}

// The lines that are left of an input, and how many were taken from it.
#[derive(Drop)]
pub(crate) struct Lines<'a> {
    taken: usize,
    rest: &'a [u8],
    ghost countable: { taken + length rest.now < 2 ^ 64 },
}

impl<'a> Lines<'a> {
    // All lines of an input.
    pub(crate) fn of(input: &'a [u8]) -> Lines<'a>
        ensures none { result.taken ≡ 0 }
        ensures all { result.rest.now ≡ input.now }
    {
        Lines {
            taken: 0,
            rest: input,
        }
    }
}

impl<'a> Iterator for Lines<'a> {
    ghost use Rattle.serve.specs.Progress.{Takes};

    type Item = Line<'a>;

    // The first line that is left comes out, with the next number.
    ghost next_gives = { Takes };

    ghost remaining = { item_count (λ ls. lines ls.rest.now) };

    fn next(&mut self) -> Option<Line<'a>> {
        if self.rest.is_empty() {
            return None;
        }
        let (text, rest) = cut_line(self.rest);
        self.rest = rest;
        self.taken += 1;
        Some(Line {
            number: self.taken,
            text,
        })
    }
}

// The first line, without its line end, and what comes after it.
fn cut_line(input: &[u8]) -> (&[u8], &[u8])
    requires { 0 < length input.now }
    ensures cut { lines input.now ≡ result.0.now ∷ lines result.1.now }
    ensures shorter { length result.1.now < length input.now }
{
    match line_end(input) {
        Some(end) => (&input[..end], &input[end + 1..]),
        None => input.split_at(input.len()),
    }
}

// Where the first line end stands.
fn line_end(input: &[u8]) -> Option<usize>
    ensures { result ≡ position (λ c. c == newline) input.now }
{
    input.iter().position(|c| *c == b'\n')
}
